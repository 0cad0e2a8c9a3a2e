// The program example: a caller of the library. It appends records to a log on a module of 64 words, loses power in the
// middle of a force, recovers the log from what the module holds, and prints the log's listing. `reference example`
// makes the same history with calls of its own; the file stdout is its text.
#![tactic(auto)]

use drivelog::{Answer, State};
use list_image::{list_image, listing_room};
use std::io;

// The words of the module, the ops for which the op buffer has room, and its words.
const WORDS: usize = 64;

const MAX_OPS: usize = 32;

const OPS_WORDS: usize = 3 * MAX_OPS;

// The driver: carries the first `count` ops out on the module. A store is (1, word, value). For a flush, (2, first word,
// count), there is nothing to do: this module has no cache in front of it.
fn carry_out(ops: &[u64; OPS_WORDS], count: usize, module: &mut [u64; WORDS]) {
    for k in 0..count.min(MAX_OPS) {
        let word = ops[3 * k + 1];
        if ops[3 * k] == 1 {
            if word < WORDS as u64 {
                module[word as usize] = ops[3 * k + 2];
            }
        }
    }
}

// Appends a record: room for it, its bytes, its check. Answers the state to go on with.
fn append(
    state: State,
    kind: u64,
    data: &[u8],
    image: &mut [u64; WORDS],
    ops: &mut [u64; OPS_WORDS],
    module: &mut [u64; WORDS],
) -> State {
    let reserved = drivelog::reserve(state, image, ops, kind, data.len() as u64);
    carry_out(ops, reserved.ops, module);
    let Ok(Answer::Reserved(lsn, _)) = reserved.answer else {
        return reserved.state;
    };
    let copied = drivelog::copy(reserved.state, image, ops, lsn, 0, data);
    carry_out(ops, copied.ops, module);
    let completed = drivelog::complete(copied.state, image, ops, lsn);
    carry_out(ops, completed.ops, module);
    completed.state
}

// Makes the records up to an LSN durable; with a frequency of 1 no force is deferred. The driver carries out `most` of
// its ops at most. Answers the state to go on with.
fn force(
    state: State,
    lsn: u64,
    most: usize,
    image: &mut [u64; WORDS],
    ops: &mut [u64; OPS_WORDS],
    module: &mut [u64; WORDS],
) -> State {
    let forced = drivelog::force(state, image, ops, lsn, 1);
    carry_out(ops, most.min(forced.ops), module);
    forced.state
}

// The first run, until power fails. Answers what the module holds then; the state and the image are lost.
fn first_run() -> [u64; WORDS] {
    let mut image = [0u64; WORDS];
    let mut ops = [0u64; OPS_WORDS];
    let mut module = [0u64; WORDS];
    let formatted = drivelog::format(&mut image, &mut ops);
    carry_out(&ops, formatted.ops, &mut module);
    let mut state = formatted.state;

    // Three records, and a force that makes them durable.
    let part = b"\x62\x05\x20\x41\x77\x33\x98\x12\x04";
    state = append(state, 1, b"\x41\x20", &mut image, &mut ops, &mut module);
    state = append(state, 2, b"\x08\x70", &mut image, &mut ops, &mut module);
    state = append(state, 3, part, &mut image, &mut ops, &mut module);
    state = force(state, 3, MAX_OPS, &mut image, &mut ops, &mut module);

    // Three more, and a force: it flushes the records, stores a mark in the first word of each, and flushes each mark.
    // Power fails after five of these seven ops. A mark that is stored and not flushed may be lost, as that of LSN 5 is.
    state = append(state, 1, b"\x41\x44", &mut image, &mut ops, &mut module);
    state = append(state, 2, b"\x09\x12", &mut image, &mut ops, &mut module);
    state = append(state, 1, b"\x41\x68", &mut image, &mut ops, &mut module);
    let unmarked = module[41];
    force(state, 6, 5, &mut image, &mut ops, &mut module);
    module[41] = unmarked;
    module
}

// The next run: recovers the log from what the module holds, and prints its records, as the program loglist does.
fn next_run(rt: &impl Print, mut module: [u64; WORDS]) -> io::Result<()> {
    let mut image = module;
    let mut ops = [0u64; OPS_WORDS];
    let recovered = drivelog::recover(&mut image, &mut ops);
    carry_out(&ops, recovered.ops, &mut module);
    let mut text = listing_room();
    let listed = list_image(&image, &mut text);
    match listed {
        Some(end) => rt.write_all(&text[..end]),
        None => Ok(()),
    }
}

fn main(rt: HostRuntime) -> io::Result<()> {
    let module = first_run();
    next_run(&rt, module)
}
