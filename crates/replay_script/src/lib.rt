// What the program replay reads and prints: the commands of a script, what they set up, and the lines of text. It makes
// no call of the log. Between the calls the state is in words, as crate words_state has them. docs/REPLAY.md has the
// script's words and the lines. The contracts say only that the used parts stay inside the arrays.
#![tactic(auto)]

pub mod digest;
pub mod input;
pub mod output;
pub mod print;
pub mod setup;

ghost use Rattle.std.specs.Prelude.{◌≤◌};

// A number, taken down to a limit.
pub fn limited(n: u64, limit: usize) -> usize
    ensures { result ≤ limit }
{
    if n < limit as u64 {
        return n as usize;
    }
    limit
}

// The first `count` of a list of words, or all where there are fewer.
pub fn front(words: &[u64], count: u64) -> &[u64] {
    &words[..limited(count, words.len())]
}
