// The program logorphans: reads an image's bytes from standard input and prints the LSNs of the listed records that name
// an inspection which no earlier listed record is. The contract of `list_input` says what it writes, at any reader and
// writer whose bytes a contract can name: `orphans_text` of the first 65,537 bytes that it reads. Where reader or
// writer fails it ends with their error, and no contract says what was written until then. Of standard input and output no
// contract can say what they give and take.
#![tactic(auto)]

ghost use Rattle.std.specs.Prelude.{◌≡◌, ◌≤◌, OnOk, IfSome, take, length};
ghost use Rattle.std.specs.Io.KnownBytes.{Appends};
ghost use Rattle.text.specs.Text.{Appended};
ghost use Rattle.list_image.specs.Listing.{listing_room};
ghost use Rattle.list_orphans.specs.OrphansText.{orphans_text};

use list_image::listing_room;
use list_orphans::list_orphans;
use read_input::read_full;
use std::io;
use std::io::{Read, Write};

// Room for the largest image and one byte more: input that fills it is too long, and no more of it is read.
fn input_room() -> [u8; 65537]
    ensures { 65537 ≡ length result }
{
    [0; 65537]
}

// Puts the orphans' LSNs of an image's bytes, from the room's start on.
fn put_orphans(input: &[u8], text: &mut [u8]) -> usize
    requires { listing_room ≤ length text.old }
    ensures { Appended 0 result text.old text.new (orphans_text input.now) }
{
    let listed = list_orphans(input, text);
    match listed {
        Some(end) => end,
        None => 0,
    }
}

// Reads an image's bytes into the first room, and writes the orphans' LSNs, put into the second.
fn list_input<R: Read, W: Write>(
    from: &mut R,
    to: &mut W,
    input: &mut [u8],
    text: &mut [u8],
) -> io::Result<()>
    requires { listing_room ≤ length text.old }
    ensures { OnOk result (IfSome (R.remaining from.old)
        (λ bytes. Appends (W.contents to.old) (W.contents to.new) (orphans_text (take (length input.old) bytes)))) }
{
    let n = read_full(from, input)?;
    let end = put_orphans(&input[..n], text);
    to.write_all(&text[..end])
}

fn main(rt: HostRuntime) -> io::Result<()> {
    let mut input = input_room();
    let mut text = listing_room();
    list_input(&mut rt.stdin(), &mut rt.stdout(), &mut input, &mut text)
}
