// The program loglist: reads an image's bytes from standard input and prints the records that it lists. The contract of
// `list_input` says what it writes, at any reader and writer whose bytes a contract can name: `bytes_text` of the first
// 65,537 bytes that it reads. Where reader or writer fails it ends with their error, and no contract says what was written
// until then. Of standard input and output no contract can say what they give and take.
#![tactic(auto)]

ghost use Rattle.std.specs.Prelude.{◌≡◌, ◌≤◌, OnOk, IfSome, take, length};
ghost use Rattle.std.specs.Io.KnownBytes.{Appends};
ghost use Rattle.text.specs.Text.{Appended};
ghost use Rattle.list_image.specs.Listing.{bytes_text, listing_room};

use list_image::{list_bytes, listing_room};
use read_input::read_full;
use std::io;
use std::io::{Read, Write};

// Room for the largest image and one byte more: input that fills it is too long, and no more of it is read.
fn input_room() -> [u8; 65537]
    ensures { 65537 ≡ length result }
{
    [0; 65537]
}

// Puts the listing of an image's bytes, from the room's start on.
fn put_listing(input: &[u8], text: &mut [u8]) -> usize
    requires { listing_room ≤ length text.old }
    ensures { Appended 0 result text.old text.new (bytes_text input.now) }
{
    list_bytes(input, text).unwrap_or(0)
}

// Reads an image's bytes into the first room, and writes the listing, made in the second.
fn list_input<R: Read, W: Write>(
    from: &mut R,
    to: &mut W,
    input: &mut [u8],
    text: &mut [u8],
) -> io::Result<()>
    requires { listing_room ≤ length text.old }
    ensures { OnOk result (IfSome (R.remaining from.old)
        (λ bytes. Appends (W.contents to.old) (W.contents to.new) (bytes_text (take (length input.old) bytes)))) }
{
    let n = read_full(from, input)?;
    let end = put_listing(&input[..n], text);
    to.write_all(&text[..end])
}

fn main(rt: HostRuntime) -> io::Result<()> {
    let mut input = input_room();
    let mut text = listing_room();
    list_input(&mut rt.stdin(), &mut rt.stdout(), &mut input, &mut text)
}
