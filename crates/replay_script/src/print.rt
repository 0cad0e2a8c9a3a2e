// What a line shows: a call's name and answer, the ops in the op buffer, the digests, words of the image, the state.
ghost use Rattle.std.specs.Prelude.{◌<◌};
ghost use Rattle.state.specs.Table.{table_size};

use crate::input::Command;
use crate::output::Output;
use crate::{digest, front, limited};
use state::{TABLE_SIZE, stage_number};
use std::io;
use words_state::{FIRST_ENTRY, STATE_WORDS, entry_from};

// The word of an answer, as the line has it.
#[derive(Clone, Copy)]
pub enum AnswerWord {
    Ok,
    Kept,
    PutOff,
    Record,
    End,
    Refused,
}

// What a call answered: its word, how many of the numbers stand after it, and after them the test that a damaged record
// fails, 0 if there is none; and how many ops the call made.
#[derive(Clone, Copy)]
pub struct Said {
    pub word: AnswerWord,
    pub count: u64,
    pub numbers: [u64; 6],
    pub damage: u64,
    pub ops: u64,
}

// Puts the name of a call, by the number of its command.
fn put_call(rt: &impl Print, out: &mut Output, number: u64) -> io::Result<()> {
    match number {
        10 => out.put_text(rt, b"format"),
        11 => out.put_text(rt, b"reserve"),
        12 => out.put_text(rt, b"copy"),
        13 => out.put_text(rt, b"complete"),
        14 => out.put_text(rt, b"force"),
        15 => out.put_text(rt, b"release"),
        16 => out.put_text(rt, b"releaseall"),
        17 => out.put_text(rt, b"takeup"),
        18 => out.put_text(rt, b"append"),
        20 => out.put_text(rt, b"open"),
        21 => out.put_text(rt, b"next"),
        _ => out.put_text(rt, b"fetch"),
    }
}

// Puts the word of an answer.
fn put_word(rt: &impl Print, out: &mut Output, word: AnswerWord) -> io::Result<()> {
    match word {
        AnswerWord::Ok => out.put_text(rt, b" ok"),
        AnswerWord::Kept => out.put_text(rt, b" kept"),
        AnswerWord::PutOff => out.put_text(rt, b" putoff"),
        AnswerWord::Record => out.put_text(rt, b" record"),
        AnswerWord::End => out.put_text(rt, b" end"),
        AnswerWord::Refused => out.put_text(rt, b" refused"),
    }
}

// Puts the test that a damaged record fails, by its number; nothing where there is none.
fn put_damage(rt: &impl Print, out: &mut Output, damage: u64) -> io::Result<()> {
    match damage {
        1 => out.put_text(rt, b" mark"),
        2 => out.put_text(rt, b" kind"),
        3 => out.put_text(rt, b" length"),
        4 => out.put_text(rt, b" fit"),
        5 => out.put_text(rt, b" LSN"),
        6 => out.put_text(rt, b" check"),
        7 => out.put_text(rt, b" epoch"),
        _ => Ok(()),
    }
}

// The five numbers of entry `i` of the table: ring position, length, kind, stage, epoch.
fn entry_numbers(state: &[u64; STATE_WORDS], i: usize) -> [u64; 5]
    requires { i < table_size }
{
    let at = FIRST_ENTRY + 2 * i;
    let e = entry_from(state[at], state[at + 1]);
    let stage = e.stage;
    [
        e.pos as u64,
        e.length as u64,
        e.kind as u64,
        stage_number(stage),
        e.epoch as u64,
    ]
}

// The digest of the state: of its eight numbers and those of each table entry.
fn state_digest(state: &[u64; STATE_WORDS]) -> u64 {
    let words: &[u64] = state;
    let mut h = digest::with_values(digest::START, &words[..FIRST_ENTRY]);
    for i in 0..TABLE_SIZE {
        h = digest::with_values(h, &entry_numbers(state, i));
    }
    h
}

// Puts the count of ops, and each op as it stands in the op buffer. The remainder is the count itself, and keeps the
// product from wrapping.
fn put_ops(rt: &impl Print, out: &mut Output, ops: &[u64], count: u64) -> io::Result<()> {
    out.put_text(rt, b" orders")?;
    out.put_number(rt, b' ', count)?;
    for op in front(ops, 3 * (count % 65536)).chunks(3) {
        out.put_op(rt, op)?;
    }
    Ok(())
}

// Puts the numbers of a table entry unless it is free: its index, its three numbers, its stage's and its epoch.
fn put_entry(rt: &impl Print, out: &mut Output, i: usize, numbers: [u64; 5]) -> io::Result<()> {
    if numbers[3] == 0 {
        return Ok(());
    }
    out.put_byte(rt, b' ')?;
    out.put_number(rt, b'[', i as u64)?;
    out.put_numbers(rt, &numbers)?;
    out.put_byte(rt, b']')
}

// Prints the state: its eight numbers, and the table entries that are not free.
fn print_state(rt: &impl Print, out: &mut Output, state: &[u64; STATE_WORDS]) -> io::Result<()> {
    out.put_text(rt, b"state")?;
    out.put_numbers(rt, &state[..FIRST_ENTRY])?;
    for i in 0..TABLE_SIZE {
        put_entry(rt, out, i, entry_numbers(state, i))?;
    }
    out.end_line(rt)
}

// Prints `count` words of the image from `first` on, as far as they exist.
fn print_words(
    rt: &impl Print,
    out: &mut Output,
    image: &[u64],
    first: u64,
    count: u64,
) -> io::Result<()> {
    let start = limited(first, image.len());
    out.put_text(rt, b"words")?;
    out.put_numbers(rt, front(&image[start..], count))?;
    out.end_line(rt)
}

// Begins the line of a call: its name and answer, with the word of a damaged record's test.
fn put_answer(rt: &impl Print, out: &mut Output, number: u64, said: Said) -> io::Result<()> {
    let word = said.word;
    let numbers = said.numbers;
    put_call(rt, out, number)?;
    put_word(rt, out, word)?;
    out.put_numbers(rt, front(&numbers, said.count))?;
    put_damage(rt, out, said.damage)
}

// Ends the line of a call: the digests of the image, the op buffer and the state, and where there are four also that of
// the output.
fn print_digests(
    rt: &impl Print,
    out: &mut Output,
    count: u64,
    state: &[u64; STATE_WORDS],
    image: &[u64],
    ops: &[u64],
    output: &[u8],
) -> io::Result<()> {
    let digests = [
        digest::with_values(digest::START, image),
        digest::with_values(digest::START, ops),
        state_digest(state),
        digest::with_values(digest::START, output),
    ];
    out.put_text(rt, b" =")?;
    out.put_numbers(rt, front(&digests, count))?;
    out.end_line(rt)
}

// Prints the line of a call, with its ops if it is one that writes.
fn print_call(
    rt: &impl Print,
    out: &mut Output,
    number: u64,
    said: Said,
    state: &[u64; STATE_WORDS],
    image: &[u64],
    ops: &[u64],
    output: &[u8],
) -> io::Result<()> {
    put_answer(rt, out, number, said)?;
    if number < 20 {
        put_ops(rt, out, ops, said.ops)?;
    }
    let count = if number == 22 { 4 } else { 3 };
    print_digests(rt, out, count, state, image, ops, output)
}

// Prints the line of a command from 10 on.
pub fn print(
    rt: &impl Print,
    out: &mut Output,
    c: Command,
    said: Said,
    state: &[u64; STATE_WORDS],
    image: &[u64],
    ops: &[u64],
    output: &[u8],
) -> io::Result<()> {
    let number = c.number;
    if number < 10 {
        return Ok(());
    }
    if number == 30 {
        return print_words(rt, out, image, c.first, c.second);
    }
    if number == 31 {
        return print_state(rt, out, state);
    }
    print_call(rt, out, number, said, state, image, ops, output)
}
