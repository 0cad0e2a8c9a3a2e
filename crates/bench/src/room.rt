// Room for the jobs: arrays of which only the length is known to a proof, and the payload of each record.
ghost use Rattle.std.specs.Prelude.{◌≡◌, length};

use crc32::{finish, over_words};

// Words of the largest image, and of the op buffer.
pub const WORDS: usize = 8192;

// Bytes of the longest record.
pub const BYTES: usize = 1024;

// The words of an image or an op buffer.
pub fn words() -> [u64; WORDS]
    ensures { 8192 ≡ length result }
{
    [0; WORDS]
}

// The bytes of a record, byte i being 7 i + 3 in its low eight bits.
pub fn payload() -> [u8; BYTES]
    ensures { 1024 ≡ length result }
{
    let mut bytes = [0u8; BYTES];
    for i in 0..BYTES {
        bytes[i] = ((7 * i + 3) % 256) as u8;
    }
    bytes
}

// The CRC-32 of words.
pub fn digest(words: &[u64]) -> u64 {
    finish(over_words(0xffffffff, words)) as u64
}

// Words with another first one, if there is one.
fn put_first(words: &mut [u64], first: u64) {
    if !words.is_empty() {
        words[0] = first;
    }
}

// So many CRC-32s of words, each of which then becomes their first one. Returns the last.
pub fn digest_over(words: &mut [u64], count: u64) -> u64 {
    let mut last: u64 = 0;
    for _ in 0..count {
        last = digest(words);
        put_first(words, last);
    }
    last
}
