// Lines of text on a runtime's output, by way of a buffer that is written out when a line ends, or when it is full, so
// that a line may be of any length.
ghost use Rattle.std.specs.Prelude.{◌≤◌};

use std::io;
use text::put_decimal;

const SIZE: usize = 256;

// The first `used` bytes are still to be written.
#[derive(Drop)]
pub struct Output {
    bytes: [u8; SIZE],
    used: usize,
    ghost within: { used ≤ 256 },
}

impl Output {
    pub fn new() -> Output {
        Output {
            bytes: [0; SIZE],
            used: 0,
        }
    }

    // Puts one byte.
    pub fn put_byte(&mut self, rt: &impl Print, byte: u8) -> io::Result<()> {
        if self.used == SIZE {
            rt.write_all(&self.bytes)?;
            self.used = 0;
        }
        self.bytes[self.used] = byte;
        self.used += 1;
        Ok(())
    }

    // Puts a text.
    pub fn put_text(&mut self, rt: &impl Print, text: &[u8]) -> io::Result<()> {
        for byte in text {
            self.put_byte(rt, *byte)?;
        }
        Ok(())
    }

    // Puts a byte, such as a blank, and a number in decimal.
    pub fn put_number(&mut self, rt: &impl Print, before: u8, n: u64) -> io::Result<()> {
        let mut digits = [0u8; 20];
        let k = put_decimal(&mut digits, 0, n);
        self.put_byte(rt, before)?;
        self.put_text(rt, &digits[..k])
    }

    // Puts numbers, each after a blank.
    pub fn put_numbers(&mut self, rt: &impl Print, values: &[u64]) -> io::Result<()> {
        for value in values {
            self.put_number(rt, b' ', *value)?;
        }
        Ok(())
    }

    // Puts an op of three numbers: a store is the letter s with its word and value, a flush f with its first word and
    // count.
    pub fn put_op(&mut self, rt: &impl Print, op: &[u64]) -> io::Result<()> {
        if let Some((kind, numbers)) = op.split_first() {
            self.put_text(rt, if *kind == 1 { b" s" } else { b" f" })?;
            self.put_numbers(rt, numbers)?;
        }
        Ok(())
    }

    // Ends the line and writes it out, so that whoever waits for it has it.
    pub fn end_line(&mut self, rt: &impl Print) -> io::Result<()> {
        self.put_byte(rt, b'\n')?;
        rt.write_all(&self.bytes[..self.used])?;
        self.used = 0;
        Ok(())
    }
}
