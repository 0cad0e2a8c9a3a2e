// The calls of the log. What they do is said by their own contracts.
use crate::said;
use crate::said::Told;
use drivelog::{Answer, Cursor, Outcome, Refusal, State, TABLE_SIZE};
use replay_script::input::Command;
use replay_script::setup::fill_bytes;
use words_state::{STATE_WORDS, load, save};

// Makes a writing call, with its first two arguments.
fn write(
    number: u64,
    first: u64,
    second: u64,
    s: State,
    image: &mut [u64],
    ops: &mut [u64],
    bytes: &[u8],
) -> Outcome {
    match number {
        10 => drivelog::format(image, ops),
        11 => drivelog::reserve(s, image, ops, first, second),
        12 => drivelog::copy(s, image, ops, first, second, bytes),
        13 => drivelog::complete(s, image, ops, first),
        14 => drivelog::force(s, image, ops, first, second),
        15 => drivelog::release(s, image, ops, first),
        16 => drivelog::release_all(s, image, ops),
        18 => drivelog::append(s, image, ops, first, bytes, second),
        _ => drivelog::recover(image, ops),
    }
}

// Each output byte before a fetch.
const OUTPUT_FILL: u8 = 238;

// Makes a reading call. A fetch puts its bytes into `output`.
fn read(c: Command, cursor: Cursor, image: &[u64], output: &mut [u8]) -> Told {
    match c.number {
        20 => said::of_opened(drivelog::open(image), cursor),
        21 => said::of_step(drivelog::next(image, cursor), cursor),
        _ => {
            fill_bytes(output, OUTPUT_FILL);
            let fetched = drivelog::fetch(image, c.first, c.second, output);
            let said = said::of_fetched(fetched);
            Told { said, cursor }
        }
    }
}

// Whether the state that a writing call returns is the one to go on with. It always is, a refused call's too, but for a
// refused format or recover: these make a state anew, and where they are refused there is none.
fn goes_on(number: u64, answer: Result<Answer, Refusal>) -> bool {
    answer.is_ok() | ((number != 10) & (number != 17))
}

// Makes a command's call, if it has one, on the state and the cursor that are kept, and keeps the state that it
// returns. `bytes` are those of a copy, of an append or of a fetch.
pub fn make(
    c: Command,
    cursor: Cursor,
    state: &mut [u64; STATE_WORDS],
    image: &mut [u64],
    ops: &mut [u64],
    bytes: &mut [u8],
) -> Told {
    let number = c.number;
    if (number < 10) | (22 < number) {
        return said::of_none(c, cursor);
    }
    if 19 < number {
        return read(c, cursor, image, bytes);
    }
    let s = load(state);
    let outcome = write(number, c.first, c.second, s, image, ops, bytes);
    let answer = outcome.answer;
    let said = said::of_answer(answer, outcome.ops as u64);
    if goes_on(number, answer) {
        save(outcome.state, 0, TABLE_SIZE, state);
    }
    Told { said, cursor }
}
