// The CRC-32 by its definition, bit by bit (specs/Bits.antt), over the bytes of words (specs/Bytes.antt, Crc.antt), and
// its laws: n bits are linear over the exclusive or, and so those of a word follow from those of its bytes. It has no
// code: crate crc_rows has the rows, and crc32 goes by them.
#![tactic(auto)]
