// The program logload: reads what loglist prints from standard input, and writes the bytes of an image of 8,192 words
// that lists the same, or a refusal. The contract of `load_input` says what it writes, at any reader and writer whose
// bytes a contract can name: `loaded_bytes` of the first 262,145 bytes that it reads, which are the bytes of the image
// that `load` makes, or the line of its refusal. Where reader or writer fails it ends with their error, and no contract
// says what was written until then. Of standard input and output no contract can say what they give and take.
#![tactic(auto)]

ghost use Rattle.std.specs.Prelude.{◌≡◌, OnOk, IfSome, take, length};
ghost use Rattle.std.specs.Io.KnownBytes.{Appends};
ghost use Rattle.refusal.specs.Refusals.{number_of};
ghost use Rattle.crc_spec.specs.Bytes.{word_bytes};
ghost use Rattle.list_lines.specs.Lines.{refused_line};
ghost use Rattle.load_image.specs.LoadImage.{answer_reply};
ghost use Rattle.logload.specs.Output.{reply_bytes, loaded_bytes};

use list_lines::refused_line;
use load_bytes::put_words;
use load_image::load_text;
use read_input::read_full;
use refusal::{Refusal, number_of};
use std::io;
use std::io::{Read, Write};

// Room for the longest input and one byte more: input that fills it is too long, and no more of it is read.
fn input_room() -> [u8; 262145]
    ensures { 262145 ≡ length result }
{
    [0; 262145]
}

// Room for an image's words.
fn image_room() -> [u64; 8192]
    ensures { 8192 ≡ length result }
{
    [0; 8192]
}

// Room for an image's bytes.
fn byte_room() -> [u8; 65536]
    ensures { 65536 ≡ length result }
{
    [0; 65536]
}

// The bytes that an image is written as.
fn image_bytes(image: &[u64; 8192]) -> [u8; 65536]
    ensures { result ≡ word_bytes image.now }
{
    let mut bytes = byte_room();
    put_words(image, &mut bytes);
    bytes
}

// Writes an image's bytes.
fn write_image<W: Write>(to: &mut W, image: &[u64; 8192]) -> io::Result<()>
    ensures { OnOk result (Appends (W.contents to.old) (W.contents to.new) (word_bytes image.now)) }
{
    let bytes = image_bytes(image);
    to.write_all(&bytes)
}

// Writes the line of a refusal.
fn write_refusal<W: Write>(to: &mut W, why: Refusal) -> io::Result<()>
    ensures { OnOk result (Appends (W.contents to.old) (W.contents to.new) (refused_line (number_of why))) }
{
    let mut line = [0u8; 29];
    let end = refused_line(&mut line, 0, number_of(why));
    to.write_all(&line[..end])
}

// Writes what a loading answers: the image's bytes, or a refusal.
fn write_answer<W: Write>(
    to: &mut W,
    answer: Result<(), Refusal>,
    image: &[u64; 8192],
) -> io::Result<()>
    ensures { OnOk result (Appends (W.contents to.old) (W.contents to.new) (reply_bytes (answer_reply answer image.now))) }
{
    match answer {
        Ok(()) => write_image(to, image),
        Err(why) => write_refusal(to, why),
    }
}

// Loads a listing's text into an image.
fn load_whole(input: &[u8], image: &mut [u64; 8192]) -> Result<(), Refusal>
    ensures { reply_bytes (answer_reply result image.new) ≡ loaded_bytes input.now }
{
    load_text(input, image)
}

// Reads a listing's text into a room and writes the image's bytes, or a refusal.
fn load_input<R: Read, W: Write>(
    from: &mut R,
    to: &mut W,
    input: &mut [u8],
    image: &mut [u64; 8192],
) -> io::Result<()>
    ensures { OnOk result (IfSome (R.remaining from.old)
        (λ bytes. Appends (W.contents to.old) (W.contents to.new) (loaded_bytes (take (length input.old) bytes)))) }
{
    let n = read_full(from, input)?;
    let answer = load_whole(&input[..n], image);
    write_answer(to, answer, image)
}

fn main(rt: HostRuntime) -> io::Result<()> {
    let mut input = input_room();
    let mut image = image_room();
    load_input(&mut rt.stdin(), &mut rt.stdout(), &mut input, &mut image)
}
