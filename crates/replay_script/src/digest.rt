// Digests of lists of values: from 7 on, each value x takes h to (31 h + x mod p) mod p, p the prime 2^31 − 1. A digest
// is below the prime; its remainder by it, which is itself, keeps the product from wrapping.
const PRIME: u64 = 2147483647;

pub const START: u64 = 7;

// The digest with one value more.
fn with_value(h: u64, x: u64) -> u64 {
    (h % PRIME * 31 + x % PRIME) % PRIME
}

// The digest with a list of values more, words or bytes.
pub fn with_values<T: Copy + Into<u64>>(start: u64, values: &[T]) -> u64 {
    values.iter().fold(start, |h, &x| with_value(h, x.into()))
}
