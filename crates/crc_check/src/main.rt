// The program crc_check: prints the proved CRC-32 of inputs whose values are published, a line of eight hex digits
// each. The file stdout has the published values: nothing, "a", "123456789", 32 bytes of 00, of FF, and 00 to 1F.
#![tactic(auto)]

use crc32::crc_bytes;
use std::io;

// Prints the CRC-32 of bytes.
fn print_crc(rt: &impl Print, bytes: &[u8]) -> io::Result<()> {
    let crc = crc_bytes(bytes);
    println!(rt; "{crc:08x}")
}

// Prints the CRC-32 of a byte 32 times over.
fn print_crc_of_32(rt: &impl Print, byte: u8) -> io::Result<()> {
    let bytes = [byte; 32];
    print_crc(rt, &bytes)
}

fn main(rt: HostRuntime) -> io::Result<()> {
    print_crc(&rt, b"")?;
    print_crc(&rt, b"a")?;
    print_crc(&rt, b"123456789")?;
    print_crc_of_32(&rt, 0)?;
    print_crc_of_32(&rt, 255)?;
    print_crc(
        &rt,
        b"\x00\x01\x02\x03\x04\x05\x06\x07\x08\x09\x0a\x0b\x0c\x0d\x0e\x0f\
          \x10\x11\x12\x13\x14\x15\x16\x17\x18\x19\x1a\x1b\x1c\x1d\x1e\x1f",
    )
}
