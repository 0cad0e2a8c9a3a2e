// The program bench: makes the log's calls over and over, and prints the processor time that they took. It reads five
// words: job, bytes of a record, live records, how often, words of the image. It prints the microseconds and a CRC-32
// of what the job left, by which `reference bench` sees that another program did the same work. Words that make no job
// get no line. The contracts say only that the used parts stay inside the arrays.
#![tactic(auto)]

mod jobs;
mod log;
mod room;

use jobs::Job;
use layout::words_from;
use list_image::listing_room;
use read_input::read_full;
use std::io;
use std::io::Read;

// Reads a job. Input that is too short makes job 0, which there is not.
fn read_job(from: &mut impl Read) -> io::Result<Job> {
    let mut bytes = [0u8; 40];
    let mut words = [0u64; 5];
    let got = read_full(from, &mut bytes)?;
    words_from(&bytes, &mut words);
    let number = if got == 40 { words[0] } else { 0 };
    Ok(Job {
        number,
        bytes: words[1],
        live: words[2],
        count: words[3],
        words: words[4],
    })
}

// Prints the result of a job.
fn print(rt: &impl Print, microseconds: u64, digest: u64) -> io::Result<()> {
    println!(rt; "{microseconds} {digest}")
}

fn main(rt: HostRuntime) -> io::Result<()> {
    let job = read_job(&mut rt.stdin())?;
    if job.number == 0 {
        return Ok(());
    }
    let mut image = room::words();
    let mut ops = room::words();
    let payload = room::payload();
    let mut text = listing_room();
    let done = jobs::run(&rt, job, &mut image, &mut ops, &payload, &mut text);
    print(&rt, done.microseconds, done.digest)
}
