// The jobs: each sets its work up, does it between two looks at the clock, and takes a CRC-32 of what is left.
ghost use Rattle.std.specs.Prelude.{◌*◌, ◌≤◌, length};

use crate::{log, room};
use drivelog::State;
use layout::words_from;
use std::time::CpuClock;

// What to do: the job's number, the bytes of a record, the live records, how often, and the words of the image.
#[derive(Clone, Copy)]
pub struct Job {
    pub number: u64,
    pub bytes: u64,
    pub live: u64,
    pub count: u64,
    pub words: u64,
}

// The result of a job: the processor time, and a CRC-32 of what it left.
#[derive(Clone, Copy)]
pub struct Done {
    pub microseconds: u64,
    pub digest: u64,
}

// What the clock answered as a count: 0 if it does not fit.
fn ticks(t: u128) -> u64 {
    if 18446744073709551615 < t {
        return 0;
    }
    t as u64
}

// A look at the clock, which counts microseconds of processor time.
fn now(clock: &impl CpuClock) -> u64 {
    match clock.process_cpu_time() {
        Ok(time) => ticks(time.as_micros()),
        Err(_) => 0,
    }
}

// The time since an earlier look at the clock, 0 if it went back.
fn since(clock: &impl CpuClock, before: u64) -> u64 {
    now(clock).saturating_sub(before)
}

// Does the work of job 1, 15, 3 or, for any other number, 4, so often: appends by four calls or by one, each followed by
// releases that leave `live` records; recoveries; listings. Answers the bytes of a listing's text.
fn work(
    job: Job,
    s: State,
    image: &mut [u64],
    ops: &mut [u64],
    payload: &[u8],
    text: &mut [u8],
) -> usize
    ensures { result ≤ length text.old }
{
    match job.number {
        1 | 15 => {
            log::append_over(
                s,
                image,
                ops,
                payload,
                job.live,
                job.count,
                job.number == 15,
            );
            0
        }
        3 => {
            log::recover_over(image, ops, job.count);
            0
        }
        _ => log::list_over(image, text, job.count),
    }
}

// Job 1000 + k: the release of the head with k released records after it, so often, each time of the same state. Job
// 2000 + k is the same with no LSN, 0: such a release is refused after the soundness test, so that the two tell what
// lies after that test.
fn release_job(
    clock: &impl CpuClock,
    job: Job,
    image: &mut [u64],
    ops: &mut [u64],
    payload: &[u8],
) -> Done {
    let s = log::start(image, ops, payload, job.live);
    let t = log::release_behind(s, image, ops, job.number % 1000);
    let lsn = if job.number < 2000 { t.head_lsn } else { 0 };
    let before = now(clock);
    log::release_over(t, image, ops, lsn, job.count);
    let microseconds = since(clock, before);
    Done {
        microseconds,
        digest: room::digest(image),
    }
}

// A CRC-32 of what a job left: of the image after appends and recoveries, of the text after listings.
fn digest_of(number: u64, image: &[u64], text: &[u8]) -> u64 {
    match number {
        1 | 3 | 15 => room::digest(image),
        _ => crc32::crc_bytes(text) as u64,
    }
}

// Does job 1, 3, 4 or 15 on a log with `live` records.
fn job_on(
    clock: &impl CpuClock,
    job: Job,
    image: &mut [u64],
    ops: &mut [u64],
    payload: &[u8],
    text: &mut [u8],
) -> Done {
    let s = log::start(image, ops, payload, job.live);
    let before = now(clock);
    let end = work(job, s, image, ops, payload, text);
    let microseconds = since(clock, before);
    Done {
        microseconds,
        digest: digest_of(job.number, image, &text[..end]),
    }
}

// Job 2: CRC-32s of the words of a payload, each of which then becomes their first one.
fn crc_job(clock: &impl CpuClock, job: Job, payload: &[u8], words: &mut [u64]) -> Done
    requires { 8 * length words.old ≤ length payload.now }
{
    words_from(payload, words);
    let before = now(clock);
    let digest = room::digest_over(words, job.count);
    let microseconds = since(clock, before);
    Done {
        microseconds,
        digest,
    }
}

// A number, taken down to a limit.
fn limited(n: u64, limit: usize) -> usize
    ensures { (result ≤ limit) × (result ≤ n) }
{
    n.min(limit as u64) as usize
}

// Does a job. Numbers above the limits are taken down to them.
pub fn run(
    clock: &impl CpuClock,
    job: Job,
    image: &mut [u64],
    ops: &mut [u64],
    payload: &[u8],
    text: &mut [u8],
) -> Done
    requires { length payload.now ≤ 1024 }
{
    let k = limited(job.bytes, payload.len());
    if job.number == 2 {
        let n = limited((k / 8) as u64, image.len());
        return crc_job(clock, job, &payload[..k], &mut image[..n]);
    }
    let n = limited(job.words, image.len());
    if 1000 <= job.number {
        return release_job(clock, job, &mut image[..n], ops, &payload[..k]);
    }
    job_on(clock, job, &mut image[..n], ops, &payload[..k], text)
}
