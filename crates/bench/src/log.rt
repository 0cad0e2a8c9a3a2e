// The log that the jobs work on: records appended, forced at every eighth, and released from the head on.
ghost use Rattle.std.specs.Prelude.{◌≤◌, length};

use drivelog::{State, append, complete, copy, force, format, recover, release, reserve};
use list_image::list_image;

// One record more, reserved and filled.
fn draft(s: State, image: &mut [u64], ops: &mut [u64], payload: &[u8]) -> State {
    let reserved = reserve(s, image, ops, 1, payload.len() as u64);
    let copied = copy(reserved.state, image, ops, s.next_lsn, 0, payload);
    copied.state
}

// One record more: reserved, filled, completed, and forced if its LSN is a multiple of eight.
pub fn append_by_four(s: State, image: &mut [u64], ops: &mut [u64], payload: &[u8]) -> State {
    let lsn = s.next_lsn;
    let drafted = draft(s, image, ops, payload);
    let completed = complete(drafted, image, ops, lsn);
    let forced = force(completed.state, image, ops, lsn, 8);
    forced.state
}

// The same, or as one call.
fn one_more(s: State, image: &mut [u64], ops: &mut [u64], payload: &[u8], once: bool) -> State {
    if once {
        let appended = append(s, image, ops, 1, payload, 8);
        return appended.state;
    }
    append_by_four(s, image, ops, payload)
}

// Whether more than `live` records are live and the head is committed.
fn is_over(head: u64, next: u64, committed: u64, live: u64) -> bool {
    (head <= committed) & (live < next.saturating_sub(head))
}

// Records released from the head on, committed ones only, until `live` are left. 256 turns are enough.
pub fn trim(s: State, image: &mut [u64], ops: &mut [u64], live: u64) -> State {
    let mut t = s;
    for _ in 0..256 {
        if !is_over(t.head_lsn, t.next_lsn, t.committed_lsn, live) {
            return t;
        }
        let released = release(t, image, ops, t.head_lsn);
        t = released.state;
    }
    t
}

// So many records appended, by four calls or by one, each followed by releases that leave `live` of them.
pub fn append_over(
    s: State,
    image: &mut [u64],
    ops: &mut [u64],
    payload: &[u8],
    live: u64,
    count: u64,
    once: bool,
) -> State {
    let mut t = s;
    for _ in 0..count {
        t = one_more(t, image, ops, payload, once);
        t = trim(t, image, ops, live);
    }
    t
}

// A log with `live` records, all of them durable.
pub fn start(image: &mut [u64], ops: &mut [u64], payload: &[u8], live: u64) -> State {
    let formatted = format(image, ops);
    let filled = append_over(formatted.state, image, ops, payload, live, live, false);
    let forced = force(filled, image, ops, live, 1);
    forced.state
}

// The `k` records after the head released, the last one first.
pub fn release_behind(s: State, image: &mut [u64], ops: &mut [u64], k: u64) -> State {
    let mut t = s;
    for after in (0..k).rev() {
        let released = release(t, image, ops, s.head_lsn.wrapping_add(after + 1));
        t = released.state;
    }
    t
}

// So many releases of an LSN, each of the same state.
pub fn release_over(s: State, image: &mut [u64], ops: &mut [u64], lsn: u64, count: u64) {
    for _ in 0..count {
        release(s, image, ops, lsn);
    }
}

// So many recoveries of an image.
pub fn recover_over(image: &mut [u64], ops: &mut [u64], count: u64) {
    for _ in 0..count {
        recover(image, ops);
    }
}

// A listing of an image. Answers the bytes of its text, 0 where the buffer has no room for any text.
fn list(image: &[u64], text: &mut [u8]) -> usize
    ensures { result ≤ length text.old }
{
    let listed = list_image(image, text);
    match listed {
        Some(end) => end,
        None => 0,
    }
}

// So many listings of an image. Answers the bytes of the text.
pub fn list_over(image: &[u64], text: &mut [u8], count: u64) -> usize
    ensures { result ≤ length text.old }
{
    let mut end: usize = 0;
    for _ in 0..count {
        end = list(image, text);
    }
    end
}
