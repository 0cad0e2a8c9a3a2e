// The exports of crate c_read, the calls that read a log for C, that include/drivelog.h declares: each is the call of its name, with the same contract.
#![tactic(auto)]

ghost use Rattle.c_read.specs.ReadCalls.{OpenCall, NextCall, FetchCall};

// Open: puts the cursor at the log's head into the words lent for it.
#[unsafe(no_mangle)]
pub extern "C" fn drivelog_open(image: &[u64], cursor: &mut [u64], reply: &mut [u64]) -> i64
    ensures { OpenCall result image.now cursor reply }
{
    c_read::drivelog_open(image, cursor, reply)
}

// Next: returns 1 with the record at the cursor, which moves after it, or 0 at the end, whose LSN it says.
#[unsafe(no_mangle)]
pub extern "C" fn drivelog_next(
    image: &[u64],
    cursor: &mut [u64],
    item: &mut [u64],
    reply: &mut [u64],
) -> i64
    ensures { NextCall result image.now cursor item reply }
{
    c_read::drivelog_next(image, cursor, item, reply)
}

// Fetch: puts the payload of `len` bytes of the record at `pos` into the output, and returns its length.
#[unsafe(no_mangle)]
pub extern "C" fn drivelog_fetch(
    image: &[u64],
    pos: u64,
    len: u64,
    output: &mut [u8],
    reply: &mut [u64],
) -> i64
    ensures { FetchCall result image.now pos len output reply }
{
    c_read::drivelog_fetch(image, pos, len, output, reply)
}
