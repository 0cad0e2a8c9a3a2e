// The crashes over an op buffer for a program in C: how many there are, and the image that one of them leaves, put into
// words that the caller lends. A reply of four words says the refusal's number and detail; count and second value are 0. A
// call returns its value, or minus the refusal's number. A refused call alters no word but the reply's, and one whose
// reply is short alters none. The contracts cite specs/CrashCalls.antt; those of inner functions specs/InnerReport.antt.
#![tactic(auto)]

ghost use Rattle.std.specs.Prelude.{◌≤◌, length};
ghost use Rattle.device.specs.Lent.{given, left};
ghost use Rattle.c_reply.specs.ReplyWords.{reply_size};
ghost use Rattle.crash_images.specs.CrashImages.{max_crashes};
ghost use Rattle.crash_images.specs.Answered.{answered};
ghost use Rattle.c_crash.specs.CrashCalls.{CountCall, ImageCall};
ghost use Rattle.c_crash.specs.InnerReport.{number_in, Reports};

use c_reply::{REPLY_WORDS, granted_value, put_refusal, put_reply};
use call_crash_images::{crash_count, crash_image};
use refusal::Refusal;

// Reports an answer and returns it.
fn report(answer: Result<u64, Refusal>, reply: &mut [u64]) -> i64
    requires { (reply_size ≤ length reply.old) × (number_in (answered answer) ≤ max_crashes) }
    ensures { Reports (answered answer) result (given reply) (left reply) }
{
    match answer {
        Ok(number) => {
            put_reply(0, 0, 0, 0, reply);
            granted_value(number)
        }
        Err(refusal) => put_refusal(refusal, reply),
    }
}

// How many crashes there are over an image and an op buffer.
pub fn drivelog_crash_count(image: &[u64], ops: &[u64], reply: &mut [u64]) -> i64
    ensures { CountCall result image.now ops.now reply }
{
    if reply.len() < REPLY_WORDS {
        return put_refusal(Refusal::OutputShort, reply);
    }
    let answer = crash_count(image, ops);
    report(answer, reply)
}

// Puts the image that a crash leaves into the output, the crash by its number, and returns the crash point.
pub fn drivelog_crash_image(
    image: &[u64],
    ops: &[u64],
    number: u64,
    output: &mut [u64],
    reply: &mut [u64],
) -> i64
    ensures { ImageCall number result image.now ops.now output reply }
{
    if reply.len() < REPLY_WORDS {
        return put_refusal(Refusal::OutputShort, reply);
    }
    let answer = crash_image(image, ops, number, output);
    report(answer, reply)
}
