// The exports of crate c_crash, the numbered crashes for C, that include/drivelog.h declares: each is the call of its name, with the same contract.
#![tactic(auto)]

ghost use Rattle.c_crash.specs.CrashCalls.{CountCall, ImageCall};

// How many crashes there are over an image and an op buffer.
#[unsafe(no_mangle)]
pub extern "C" fn drivelog_crash_count(image: &[u64], ops: &[u64], reply: &mut [u64]) -> i64
    ensures { CountCall result image.now ops.now reply }
{
    c_crash::drivelog_crash_count(image, ops, reply)
}

// Puts the image that a crash leaves into the output, the crash by its number, and returns the crash point.
#[unsafe(no_mangle)]
pub extern "C" fn drivelog_crash_image(
    image: &[u64],
    ops: &[u64],
    number: u64,
    output: &mut [u64],
    reply: &mut [u64],
) -> i64
    ensures { ImageCall number result image.now ops.now output reply }
{
    c_crash::drivelog_crash_image(image, ops, number, output, reply)
}
