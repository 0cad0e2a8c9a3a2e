// Commands of the script, off a reader: each with its arguments, within the limits, and the bytes of a copy or an
// append with it.
use read_input::read_full;
use std::io;
use std::io::Read;

// The most words of the image and of the op buffer, and bytes of a copy, an append or a fetch.
pub const MAX_IMAGE: usize = 9000;

pub const MAX_OPS: usize = 26000;

pub const MAX_BYTES: usize = 2048;

// A command's number and its arguments; those that it does not have are 0.
#[derive(Clone, Copy)]
pub struct Command {
    pub number: u64,
    pub first: u64,
    pub second: u64,
    pub third: u64,
    pub fourth: u64,
    pub fifth: u64,
    pub sixth: u64,
}

// Reads a word, if it is there.
fn read_word(from: &mut impl Read) -> io::Result<Option<u64>> {
    let mut bytes = [0u8; 8];
    let got = read_full(from, &mut bytes)?;
    Ok((got == 8).then_some(layout::pack(bytes)))
}

// Reads so many arguments, if all are there; those that a command does not have are 0.
fn read_arguments(from: &mut impl Read, count: usize) -> io::Result<Option<[u64; 6]>> {
    let mut arguments = [0u64; 6];
    for argument in arguments.iter_mut().take(count) {
        let Some(word) = read_word(from)? else {
            return Ok(None);
        };
        *argument = word;
    }
    Ok(Some(arguments))
}

// Reads `count` bytes rounded up to whole words, and says whether all were there. They do not fit only where the count
// exceeds the limit, or in a buffer that is not of whole words itself.
fn read_bytes(from: &mut impl Read, bytes: &mut [u8], count: u64) -> io::Result<bool> {
    if (bytes.len() as u64) < count {
        return Ok(false);
    }
    let size = (count as usize + 7) / 8 * 8;
    if bytes.len() < size {
        return Ok(false);
    }
    let got = read_full(from, &mut bytes[..size])?;
    Ok(got == size)
}

// How many arguments a command has, if there is such a command.
fn argument_count(number: u64) -> Option<usize> {
    match number {
        10 | 16 | 17 | 20 | 21 | 31 => Some(0),
        13 | 15 => Some(1),
        1 | 2 | 3 | 4 | 11 | 14 | 30 => Some(2),
        12 | 18 | 22 => Some(3),
        5 | 6 => Some(6),
        _ => None,
    }
}

// Whether a command exceeds a limit: its count of words, or of bytes.
fn is_too_large(number: u64, first: u64, third: u64) -> bool {
    match number {
        1 => first > MAX_IMAGE as u64,
        3 => first > MAX_OPS as u64,
        12 | 18 | 22 => third > MAX_BYTES as u64,
        _ => false,
    }
}

// Prints that a word is no command, or that a command exceeds a limit, which ends the script.
fn bad(rt: &impl Print, number: u64) -> io::Result<Option<Command>> {
    println!(rt; "bad {number}")?;
    Ok(None)
}

// Reads the next command, and the bytes after a copy or an append. There is none after the 0 that ends the script, and at
// the end of the input, also one that cuts a command off.
pub fn read_command(
    rt: &impl Print,
    from: &mut impl Read,
    bytes: &mut [u8],
) -> io::Result<Option<Command>> {
    let Some(number) = read_word(from)? else {
        return Ok(None);
    };
    if number == 0 {
        return Ok(None);
    }
    let Some(count) = argument_count(number) else {
        return bad(rt, number);
    };
    let Some(arguments) = read_arguments(from, count)? else {
        return Ok(None);
    };
    let [first, second, third, fourth, fifth, sixth] = arguments;
    if is_too_large(number, first, third) {
        return bad(rt, number);
    }
    if ((number == 12) | (number == 18)) && !read_bytes(from, bytes, third)? {
        return Ok(None);
    }
    Ok(Some(Command {
        number,
        first,
        second,
        third,
        fourth,
        fifth,
        sixth,
    }))
}
