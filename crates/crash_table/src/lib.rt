// The table by which crashes are counted: the values stored since the last flush of their word, without the flushed one
// and without repeats. What is flushed is read from the op buffer. The contracts cite specs/InnerSteps.antt of
// crash_images and specs/InnerTable.antt.
#![tactic(auto)]

ghost use Rattle.std.specs.Prelude.{◌≡◌, [], ◌∷◌, cond, ◌||◌, ◌+◌, ◌*◌, ◌/◌, ◌≤◌, ◌<◌, eqb, length, reverse, count_by};
ghost use Rattle.device.specs.Crash.{within};
ghost use Rattle.crash_images.specs.CrashImages.{max_crashes};
ghost use Rattle.device.specs.ReadOps.{op_of, ops_of};
ghost use Rattle.crash_images.specs.InnerSteps.{newest_step, flushed_step, newest_at, flushed_at, GoodOps};
ghost use Rattle.crash_images.specs.InnerSteps.{in_table, without, table_at, table_count};
ghost use Rattle.crash_table.specs.InnerTable.{table_room, more_images};

use crash_images::Entry;
use std::marker::Model;

// The entries that a table has room for: with more of them, there are more than 4,096 crashes.
pub const TABLE_ROOM: usize = 90;

// A word's newest and flushed value.
#[derive(Clone, Copy)]
pub struct Held {
    pub newest: u64,
    pub flushed: u64,
}

// Whether a flush covers word w.
fn covers(first: u64, count: u64, w: u64) -> bool
    ensures { result ≡ within first count w }
{
    first <= w && w - first < count
}

// They after one op.
fn held_after(held: Held, tag: u64, word: u64, argument: u64, w: u64) -> Held
    ensures { (result.newest ≡ newest_step (op_of tag word argument) w held.newest)
        × (result.flushed ≡ flushed_step (op_of tag word argument) w held.newest held.flushed) }
{
    if tag == 1 {
        if w == word {
            return Held {
                newest: argument,
                ..held
            };
        }
        return held;
    }
    if covers(word, argument, w) {
        return Held {
            flushed: held.newest,
            ..held
        };
    }
    held
}

// They after the first k ops of a buffer.
pub fn held_at(image: &[u64], ops: &[u64], k: usize, w: usize) -> Held
    requires { (w < length image.now) × (k * 3 ≤ length ops.now) }
    ensures { (result.newest ≡ newest_at image.now (ops_of ops.now) k w)
        × (result.flushed ≡ flushed_at image.now (ops_of ops.now) k w) }
{
    let mut held = Held {
        newest: image[w],
        flushed: image[w],
    };
    for j in 0..k {
        let at = j * 3;
        held = held_after(held, ops[at], ops[at + 1], ops[at + 2], w as u64);
    }
    held
}

// How many of the entries are of word w.
pub fn count_of(entries: &[Entry], w: u64) -> usize
    ensures { result ≡ count_by (λ e. eqb e.word w) entries.now }
{
    let mut count = 0;
    for entry in entries {
        if entry.word == w {
            count += 1;
        }
    }
    count
}

// How many images there are with one entry more of a word that has c of them.
fn more_images(images: u64, c: usize) -> u64
    requires { (images ≤ max_crashes) × (c ≤ table_room) }
    ensures { result ≡ more_images images c }
{
    images / (1 + c as u64) * (2 + c as u64)
}

// A table: its entries, the oldest first, and how many images they make. Clauses see the entries, the newest first.
#[derive(Drop)]
pub struct Table {
    entries: [Entry; TABLE_ROOM],
    len: usize,
    images: u64,
}

impl Model for Table {
    ghost use Rattle.std.specs.Prelude.{◌≡◌, ◌≤◌, List, take, reverse};
    ghost use Rattle.crash_images.specs.declared.Entry.{Entry};
    ghost use Rattle.crash_images.specs.InnerSteps.{table_count};
    ghost use Rattle.crash_table.specs.InnerTable.{table_room};

    ghost Value = { List Entry };

    ghost view = { λ t. reverse (take t.len t.entries) };

    ghost invariant = { λ t. (t.len ≤ table_room) × (t.images ≡ table_count (reverse (take t.len t.entries))) };
}

impl Table {
    // A table without entries.
    pub fn new() -> Table
        ensures { result ≡ [] }
    {
        Table {
            entries: [Entry { word: 0, value: 0 }; TABLE_ROOM],
            len: 0,
            images: 1,
        }
    }

    // How many images there are.
    pub fn images(&self) -> u64
        ensures { result ≡ table_count self.now }
    {
        self.images
    }

    // How many entries it has.
    pub fn len(&self) -> usize
        ensures { result ≡ length self.now }
    {
        self.entries().len()
    }

    // The entries, the oldest first.
    pub fn entries(&self) -> &[Entry]
        ensures { reverse result.now ≡ self.now }
    {
        &self.entries[..self.len]
    }

    // Puts an entry after the others.
    fn put(&mut self, entry: Entry)
        requires { (length self.old < table_room) × (table_count self.old ≤ max_crashes) }
        ensures { self.new ≡ entry ∷ self.old }
    {
        let c = count_of(&self.entries[..self.len], entry.word);
        self.images = more_images(self.images, c);
        self.entries[self.len] = entry;
        self.len += 1;
    }

    // Puts an entry, unless it is that of the flushed value or is there already.
    fn store(&mut self, entry: Entry, flushed: u64)
        requires { (length self.old < table_room) × (table_count self.old ≤ max_crashes) }
        ensures { self.new
            ≡ cond (eqb entry.value flushed || in_table entry.word entry.value self.old) self.old (entry ∷ self.old) }
    {
        if entry.value != flushed && !self.entries().contains(&entry) {
            self.put(entry);
        }
    }

    // Keeps the entries of words that a flush does not cover.
    fn flush(&mut self, first: u64, count: u64)
        requires { table_count self.old ≤ max_crashes }
        ensures { self.new ≡ without first count self.old }
    {
        let mut kept = 0;
        let mut images = 1;
        for j in 0..self.len {
            let entry = self.entries[j];
            if covers(first, count, entry.word) {
                continue;
            }
            images = more_images(images, count_of(&self.entries[..kept], entry.word));
            self.entries[kept] = entry;
            kept += 1;
        }
        self.len = kept;
        self.images = images;
    }

    // From the table after k ops, that after k + 1.
    pub fn carry(&mut self, image: &[u64], ops: &[u64], k: usize)
        requires { GoodOps (length image.now) ops.now × (k * 3 + 3 ≤ length ops.now)
            × (self.old ≡ table_at image.now (ops_of ops.now) k)
            × (length self.old < table_room) × (table_count self.old ≤ max_crashes) }
        ensures { self.new ≡ table_at image.now (ops_of ops.now) (k + 1) }
    {
        let at = k * 3;
        let word = ops[at + 1];
        let argument = ops[at + 2];
        if ops[at] == 1 {
            let held = held_at(image, ops, k, word as usize);
            self.store(
                Entry {
                    word,
                    value: argument,
                },
                held.flushed,
            );
        } else {
            self.flush(word, argument);
        }
    }
}
