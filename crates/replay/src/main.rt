// The program replay: reads a script of calls from standard input, makes each call on its own image, op buffer, state
// and cursor, and prints what each call answered and left after. docs/REPLAY.md has the script's words and the lines.
#![tactic(auto)]

mod calls;
mod said;

use calls::make;
use drivelog::Cursor;
use replay_script::input::{Command, MAX_BYTES, MAX_IMAGE, MAX_OPS};
use replay_script::output::Output;
use replay_script::print::print;
use replay_script::setup::{fill_words, set};
use replay_script::{input, limited};
use std::io;
use std::io::Read;
use words_state::STATE_WORDS;

// Carries a command out on the used words, and answers the cursor after it. `bytes` are those of a copy, of an append or
// of a fetch.
fn act(
    rt: &impl Print,
    c: Command,
    cursor: Cursor,
    state: &mut [u64; STATE_WORDS],
    image: &mut [u64],
    ops: &mut [u64],
    bytes: &mut [u8],
    out: &mut Output,
) -> io::Result<Cursor> {
    set(c, state, image);
    let told = make(c, cursor, state, image, ops, bytes);
    print(rt, out, c, told.said, state, image, ops, bytes)?;
    Ok(told.cursor)
}

// What is kept from command to command beside the state: the cursor, and how many words of the image and of the op
// buffer are used.
#[derive(Clone, Copy)]
struct Kept {
    cursor: Cursor,
    image_used: u64,
    ops_used: u64,
}

// Carries a command out on the used words, and on as many bytes as its third argument says, those of a copy, of an append
// or of a fetch. All are within the limits.
fn carry_out(
    rt: &impl Print,
    c: Command,
    kept: Kept,
    state: &mut [u64; STATE_WORDS],
    image: &mut [u64],
    ops: &mut [u64],
    bytes: &mut [u8],
    out: &mut Output,
) -> io::Result<Kept> {
    let image_used = fill_words(image, kept.image_used, c.number == 1, c.first, c.second);
    let ops_used = fill_words(ops, kept.ops_used, c.number == 3, c.first, c.second);
    let n = limited(image_used, image.len());
    let t = limited(ops_used, ops.len());
    let m = limited(c.third, bytes.len());
    let cursor = act(
        rt,
        c,
        kept.cursor,
        state,
        &mut image[..n],
        &mut ops[..t],
        &mut bytes[..m],
        out,
    )?;
    Ok(Kept {
        cursor,
        image_used,
        ops_used,
    })
}

// Carries out the commands of the script, from an image and an op buffer of no words and a state and a cursor all
// zero. A proved loop has to end, and nothing says that the input does, so it goes through more turns than any run uses
// up.
fn run(
    rt: &impl Print,
    from: &mut impl Read,
    image: &mut [u64],
    ops: &mut [u64],
    bytes: &mut [u8],
    out: &mut Output,
) -> io::Result<()> {
    let mut state = [0u64; STATE_WORDS];
    let cursor = Cursor {
        pos: 0,
        lsn: 0,
        used: 0,
        count: 0,
        last_epoch: 0,
        superline_epoch: 0,
    };
    let mut kept = Kept {
        cursor,
        image_used: 0,
        ops_used: 0,
    };
    for _ in 0..u64::MAX {
        let Some(c) = input::read_command(rt, from, bytes)? else {
            return Ok(());
        };
        kept = carry_out(rt, c, kept, &mut state, image, ops, bytes, out)?;
    }
    Ok(())
}

fn main(rt: HostRuntime) -> io::Result<()> {
    let mut image = [0u64; MAX_IMAGE];
    let mut ops = [0u64; MAX_OPS];
    let mut bytes = [0u8; MAX_BYTES];
    let mut out = Output::new();
    run(
        &rt,
        &mut rt.stdin(),
        &mut image,
        &mut ops,
        &mut bytes,
        &mut out,
    )
}
