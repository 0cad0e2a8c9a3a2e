// The crashes over an op buffer, numbered, and the image that each leaves (specs/CrashImages.antt), with the theorem
// that each image that a crash may leave at a point comes exactly once (specs/EachOnce.antt). The functions that find
// them are in crate call_crash_images.
#![tactic(auto)]

// A value stored since the last flush of its word, other than the flushed one.
#[derive(Clone, Copy, PartialEq, Eq)]
pub struct Entry {
    pub word: u64,
    pub value: u64,
}
