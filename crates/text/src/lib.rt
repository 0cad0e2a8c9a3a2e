// Text built in a buffer that the caller lends: bytes, decimal numbers, hex pairs. Each function puts its text from an
// index on and answers the index after it, so that calls put one text after another.
// The contracts cite specs/Text.antt.
#![tactic(auto)]

ghost use Rattle.std.specs.Prelude.{◌≡◌, ◌+◌, ◌*◌, ◌≤◌, ◌<◌, length};
ghost use Rattle.io.specs.Digits.{hex_digit_ascii};
ghost use Rattle.text.specs.Text.{decimal_text, hex_text, Appended};

// Puts bytes as they are.
pub fn put_bytes(out: &mut [u8], at: usize, bytes: &[u8]) -> usize
    requires { at + length bytes.now ≤ length out.old }
    ensures { Appended at result out.old out.new bytes.now }
{
    let end = at + bytes.len();
    out[at..end].copy_from_slice(bytes);
    end
}

// Puts a number in decimal, which takes at most 20 bytes. The digits are the library's: `write!` would answer a Result,
// which is no plainer.
pub fn put_decimal(out: &mut [u8], at: usize, n: u64) -> usize
    requires { at + 20 ≤ length out.old }
    ensures { Appended at result out.old out.new (decimal_text n) }
{
    let mut digits = [0u8; 20];
    let k = io::decimal(n, &mut digits);
    put_bytes(out, at, &digits[..k])
}

// The hex digit of a number below 16, in lower case.
fn hex_digit(d: u8) -> u8
    requires { d < 16 }
    ensures { result ≡ hex_digit_ascii d }
{
    if d < 10 { 48 + d } else { 87 + d }
}

// Puts each byte as two hex digits.
pub fn put_hex(out: &mut [u8], at: usize, bytes: &[u8]) -> usize
    requires { at + 2 * length bytes.now ≤ length out.old }
    ensures { Appended at result out.old out.new (hex_text bytes.now) }
{
    let mut end = at;
    for b in bytes {
        out[end] = hex_digit(*b / 16);
        out[end + 1] = hex_digit(*b % 16);
        end += 2;
    }
    end
}
