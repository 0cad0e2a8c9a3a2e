// The program logwhy: reads an image's bytes and after them an LSN, 8 bytes, from standard input, and prints why that
// LSN is listed or not. The contract of `answer_input` says what it writes, at any reader and writer whose bytes a
// contract can name: the line of the reason that the first 65,545 bytes it reads have. Where reader or writer fails
// it ends with their error, and no contract says what was written until then. Of standard input and output no contract can
// say what they give and take.
#![tactic(auto)]

ghost use Rattle.std.specs.Prelude.{◌≡◌, OnOk, IfSome, take, length};
ghost use Rattle.std.specs.Io.KnownBytes.{Appends};
ghost use Rattle.why_listed.specs.Reasons.{input_reason};
ghost use Rattle.why_listed.specs.Line.{reply_line};

use read_input::read_full;
use std::io;
use std::io::{Read, Write};
use why_listed::{LINE_ROOM, why_line};

// Room for the largest image, a number and one byte more: input that fills it is too long, and no more of it is read.
fn input_room() -> [u8; 65545]
    ensures { 65545 ≡ length result }
{
    [0; 65545]
}

// Reads an image's bytes and an LSN into the room, and writes the line that says why.
fn answer_input<R: Read, W: Write>(from: &mut R, to: &mut W, input: &mut [u8]) -> io::Result<()>
    ensures { OnOk result (IfSome (R.remaining from.old)
        (λ bytes. Appends (W.contents to.old) (W.contents to.new)
        (reply_line (input_reason (take (length input.old) bytes))))) }
{
    let n = read_full(from, input)?;
    let mut line = [0u8; LINE_ROOM];
    let end = why_line(&input[..n], &mut line);
    to.write_all(&line[..end])
}

fn main(rt: HostRuntime) -> io::Result<()> {
    let mut input = input_room();
    answer_input(&mut rt.stdin(), &mut rt.stdout(), &mut input)
}
