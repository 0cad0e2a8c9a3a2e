// The crashes over an op buffer counted, and the image that one of them leaves put into a lent slice. An image is put
// only once it is known that there is one of its number: the image is copied, the words that ops store to get their
// flushed values, and then those of the table their choices. The contracts cite specs/CrashImages.antt of crash_images;
// those of inner functions its specs/InnerSteps.antt and specs/InnerPut.antt.
#![tactic(auto)]

ghost use Rattle.std.specs.Prelude.{◌≡◌, [], ◌∷◌, ◌+◌, ◌*◌, ◌/◌, ◌≤◌, ◌<◌, length, get_or, reverse};
ghost use Rattle.std.proofs.Props.{props};
ghost use Rattle.device.specs.Lent.{given, left, room};
ghost use Rattle.device.specs.ReadOps.{ops_of, first_other};
ghost use Rattle.refusal.specs.Tests.{op_test};
ghost use Rattle.crash_images.specs.Answered.{answered};
ghost use Rattle.crash_images.specs.CrashImages.{op_ok, max_crashes, total, count_reply};
ghost use Rattle.crash_images.specs.CrashImages.{image_left, crash_number, crash_reply, point_reply, output_left};
ghost use Rattle.crash_images.specs.InnerSteps.{values_of, words_by, StoresIn-prop, GoodOps};
ghost use Rattle.call_crash_images.specs.InnerPut.{lent_tests, IsFlush-prop, LastStore, Tests};
ghost use Rattle.call_crash_images.specs.InnerPut.{NextStore, NextChange, Totals, Finds};
ghost use Rattle.call_crash_images.specs.InnerPut.{FlushedOf, FlushedWords, NextWord, PutsChoice};

use crash_images::Entry;
use crash_table::{Table, count_of, held_at};
use refusal::Refusal;
use scan::image_size_ok;

// The most crashes that are told apart.
pub const MAX_CRASHES: u64 = 4096;

// Whether three words are an op of a module of n words.
fn op_ok(n: u64, tag: u64, word: u64, argument: u64) -> bool
    ensures { result ≡ op_ok n tag word argument }
{
    word < n && ((tag == 1) | ((tag == 2) & ((1 <= argument) & (argument <= n - word))))
}

// Test 21: the lowest number of an op that is not one. Where it passes, how many ops there are up to the last store:
// the others are flushes.
fn checked_ops(n: usize, ops: &[u64]) -> Result<usize, Refusal>
    ensures { Tests (op_test (first_other (op_ok n) 0 ops.now) ∷ []) (ops_of ops.now) result }
{
    let mut stores = 0;
    for k in 0..ops.len() / 3 {
        let at = k * 3;
        if !op_ok(n as u64, ops[at], ops[at + 1], ops[at + 2]) {
            return Err(Refusal::BadOp(k as u64));
        }
        if ops[at] == 1 {
            stores = k + 1;
        }
    }
    if ops.len() % 3 != 0 {
        return Err(Refusal::BadOp((ops.len() / 3) as u64));
    }
    Ok(stores)
}

// Tests 1 and 21, of an image of n words and room for one of so many.
fn checked_words(n: usize, room: usize, ops: &[u64]) -> Result<usize, Refusal>
    ensures { Tests (lent_tests n room ops.now) (ops_of ops.now) result }
{
    if !image_size_ok(n) {
        return Err(Refusal::ImageSize);
    }
    if room != n {
        return Err(Refusal::ImageSize);
    }
    checked_ops(n, ops)
}

// Copies an image into words of its length. A loop, since for two slices that a caller lends copy_from_slice would be a call of
// memmove, which the archive needs for nothing else.
fn copy_image(image: &[u64], output: &mut [u64])
    requires { length image.now ≡ length output.old }
    ensures { left output ≡ image.now }
{
    for w in 0..image.len() {
        output[w] = image[w];
    }
}

// Puts the value that is flushed after k ops of the word that op j stores to.
fn put_flushed_of(image: &[u64], ops: &[u64], k: usize, j: usize, output: &mut [u64])
    requires { GoodOps (length image.now) ops.now × (length image.now ≡ length output.old)
        × (k * 3 ≤ length ops.now) × (j * 3 + 3 ≤ length ops.now) }
    ensures { FlushedOf image.now (ops_of ops.now) k j (given output) (left output) }
{
    let at = j * 3;
    if ops[at] == 1 {
        let w = ops[at + 1] as usize;
        output[w] = held_at(image, ops, k, w).flushed;
    }
}

// The lowest word of the entries that is not below from, or n if there is none below that.
fn next_word(entries: &[Entry], from: u64, n: u64) -> u64
    requires { from ≤ n }
    ensures { NextWord (reverse entries.now) from n result }
{
    let mut best = n;
    for entry in entries {
        if entry.word >= from {
            best = best.min(entry.word);
        }
    }
    best
}

// Choice d of word w: its flushed value, or that of an entry.
fn choice_of(entries: &[Entry], w: u64, d: u64, flushed: u64) -> u64
    ensures { result ≡ get_or (flushed ∷ values_of w (reverse entries.now)) d 0 }
{
    if d == 0 {
        return flushed;
    }
    let mut stored = entries.iter().filter(|entry| entry.word == w);
    stored.nth((d - 1) as usize).map_or(0, |entry| entry.value)
}

// Puts word w's value by the lowest digit of m, and returns the number of the rest.
fn put_choice(entries: &[Entry], w: u64, m: u64, output: &mut [u64]) -> u64
    requires { w < length output.old }
    ensures { PutsChoice (reverse entries.now) w m result (given output) (left output) }
{
    let c = count_of(entries, w) as u64;
    let at = w as usize;
    output[at] = choice_of(entries, w, m % (1 + c), output[at]);
    m / (1 + c)
}

// Puts the values of choice m over the flushed ones.
fn put_choices(entries: &[Entry], m: u64, output: &mut [u64])
    ensures { left output ≡ words_by (λ w. get_or (given output) w 0) (reverse entries.now) 0 (room output) m }
{
    let n = output.len() as u64;
    let mut rest = m;
    let mut w = next_word(entries, 0, n);
    // A while: the step is to the table's next word, and not to w + 1.
    while w < n {
        rest = put_choice(entries, w, rest, output);
        w = next_word(entries, w + 1, n);
    }
}

// A crash: its point, and the number of its image there.
#[derive(Clone, Copy)]
struct Found {
    point: usize,
    choice: u64,
}

// An image and ops that pass the tests, and how many of the ops there are up to the last store.
#[derive(Clone, Copy)]
struct Crashes<'a> {
    image: &'a [u64],
    ops: &'a [u64],
    stores: usize,
    ghost good: { GoodOps (length image.now) ops.now } by { Prim.hlevel (props, StoresIn-prop) },
    ghost last: { LastStore (ops_of ops.now) stores } by { Prim.hlevel (props, IsFlush-prop) },
}

impl<'a> Crashes<'a> {
    // The first op from k on, below end, that is a store; end if there is none.
    fn next_store(&self, k: usize, end: usize) -> usize
        requires { (k ≤ end) × (end * 3 ≤ length self.now.ops.now) }
        ensures { NextStore (ops_of self.now.ops.now) k end result }
    {
        for j in k..end.min(self.stores) {
            if self.ops[j * 3] == 1 {
                return j;
            }
        }
        end
    }

    // The first op from k on, below end, that can change a table of so many entries: op k, or the next store if there
    // are none.
    fn next_change(&self, k: usize, end: usize, entries: usize) -> usize
        requires { (k ≤ end) × (end * 3 ≤ length self.now.ops.now) }
        ensures { NextChange (ops_of self.now.ops.now) k end entries result }
    {
        if entries == 0 {
            return self.next_store(k, end);
        }
        k
    }

    // How many crashes there are in all; where they are more than 4,096, how many at the points up to one where they
    // are. A flush of an empty table leaves one image, so that such flushes are only counted.
    fn total(&self) -> u64
        ensures { Totals result (total self.now.image.now (ops_of self.now.ops.now)) }
    {
        let mut table = Table::new();
        let count = self.ops.len() / 3;
        let mut k = self.next_store(0, count);
        let mut sum = 1 + k as u64;
        // A while: the step is to the next op that can change the table, and the sum ends it too.
        while (k < count) & (sum <= MAX_CRASHES) {
            table.carry(self.image, self.ops, k);
            let next = self.next_change(k + 1, count, table.len());
            sum += table.images() + (next - k - 1) as u64;
            k = next;
        }
        sum
    }

    // Crash number i, with the table at its point left.
    fn find(&self, i: u64, table: &mut Table) -> Found
        requires { (table.old ≡ []) × (i < total self.now.image.now (ops_of self.now.ops.now))
            × (total self.now.image.now (ops_of self.now.ops.now) ≤ max_crashes) }
        ensures { Finds self.now.image.now (ops_of self.now.ops.now) i result table.new }
    {
        let count = self.ops.len() / 3;
        let mut k = self.next_store(0, count.min(i as usize));
        let mut left = i - k as u64;
        // A while: the step is to the next op that can change the table.
        while table.images() <= left {
            left -= table.images();
            table.carry(self.image, self.ops, k);
            let end = count.min(k + 1 + left as usize);
            let next = self.next_change(k + 1, end, table.len());
            left -= (next - k - 1) as u64;
            k = next;
        }
        Found {
            point: k,
            choice: left,
        }
    }

    // Puts the values that are flushed after k ops.
    fn put_flushed(&self, k: usize, output: &mut [u64])
        requires { (length self.now.image.now ≡ length output.old) × (k * 3 ≤ length self.now.ops.now) }
        ensures { FlushedWords self.now.image.now (ops_of self.now.ops.now) k (left output) }
    {
        copy_image(self.image, output);
        for j in 0..k.min(self.stores) {
            put_flushed_of(self.image, self.ops, k, j, output);
        }
    }

    // Puts the image of crash number i, and returns its point.
    fn put(&self, i: u64, output: &mut [u64]) -> u64
        requires { (length self.now.image.now ≡ length output.old)
            × (i < total self.now.image.now (ops_of self.now.ops.now))
            × (total self.now.image.now (ops_of self.now.ops.now) ≤ max_crashes) }
        ensures { (result ≡ (crash_number self.now.image.now (ops_of self.now.ops.now) i).point)
            × (left output ≡ image_left self.now.image.now (ops_of self.now.ops.now) i) }
    {
        let mut table = Table::new();
        let found = self.find(i, &mut table);
        self.put_flushed(found.point, output);
        put_choices(table.entries(), found.choice, output);
        found.point as u64
    }
}

// How many crashes there are over an image and an op buffer.
pub fn crash_count(image: &[u64], ops: &[u64]) -> Result<u64, Refusal>
    ensures { answered result ≡ count_reply image.now ops.now }
{
    let stores = checked_words(image.len(), image.len(), ops)?;
    let total = Crashes { image, ops, stores }.total();
    if MAX_CRASHES < total {
        return Err(Refusal::TooManyCrashes);
    }
    Ok(total)
}

// The image that crash number i leaves, put into the output. It answers the crash point; a refusal leaves the output.
pub fn crash_image(image: &[u64], ops: &[u64], i: u64, output: &mut [u64]) -> Result<u64, Refusal>
    ensures { (answered result ≡ point_reply (crash_reply image.now ops.now i (room output)))
        × (left output
        ≡ output_left image.now (ops_of ops.now) (crash_reply image.now ops.now i (room output))
        (given output)) }
{
    let stores = checked_words(image.len(), output.len(), ops)?;
    let crashes = Crashes { image, ops, stores };
    let total = crashes.total();
    if MAX_CRASHES < total {
        return Err(Refusal::TooManyCrashes);
    }
    if total <= i {
        return Err(Refusal::NoSuchCrash);
    }
    Ok(crashes.put(i, output))
}
