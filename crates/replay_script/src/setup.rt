// The commands that set up what the calls work on: words of the image and the op buffer, the state.
use crate::input::Command;
use crate::limited;
use state::{Entry, TABLE_SIZE};
use words_state::{FIRST_ENTRY, STATE_WORDS, put_entry, stage_from};

// If a command fills an array, its first `count` words become `value`, or all of them where there are fewer. Answers
// how many words are used: those, else as many as before.
pub fn fill_words(words: &mut [u64], used: u64, fills: bool, count: u64, value: u64) -> u64 {
    if !fills {
        return used;
    }
    let n = limited(count, words.len());
    words[..n].fill(value);
    count
}

// Each byte becomes `value`.
pub fn fill_bytes(bytes: &mut [u8], value: u8) {
    bytes.fill(value);
}

// A table entry becomes what the arguments say. A number that is no stage's is free.
fn set_entry(state: &mut [u64; STATE_WORDS], c: Command) {
    let number = if c.fifth < 5 { c.fifth } else { 0 };
    let stage = stage_from(number);
    let entry = Entry {
        pos: (c.second % 65536) as u16,
        length: (c.third % 65536) as u16,
        kind: (c.fourth % 65536) as u16,
        stage,
        epoch: (c.sixth % 4294967296) as u32,
    };
    put_entry((c.first % TABLE_SIZE as u64) as usize, entry, state);
}

// The commands 2, 4 and 5: a word of the image, one of the eight numbers of the state, a table entry.
pub fn set(c: Command, state: &mut [u64; STATE_WORDS], image: &mut [u64]) {
    let number = c.number;
    let index = c.first;
    if number == 2 {
        if index < image.len() as u64 {
            image[index as usize] = c.second;
        }
        return;
    }
    if number == 4 {
        if index < FIRST_ENTRY as u64 {
            state[index as usize] = c.second;
        }
        return;
    }
    if number == 5 {
        set_entry(state, c);
    }
}
