// The exports of crate c_append, append in one call for C, that include/drivelog.h declares: each is the call of its name, with the same contract.
#![tactic(auto)]

ghost use Rattle.append.specs.AppendCall.{append_effect};
ghost use Rattle.c_write.specs.WriteCalls.{Through};
ghost use Rattle.device.specs.Lent.{given, room};

// Append: returns the new record's LSN, and says as the second value whether it is durable (1) or that is deferred (0).
#[unsafe(no_mangle)]
pub extern "C" fn drivelog_append(
    state: &mut [u64],
    image: &mut [u64],
    ops: &mut [u64],
    kind: u64,
    bytes: &[u8],
    frequency: u64,
    reply: &mut [u64],
) -> i64
    ensures { Through (λ s. append_effect s (given image) (room ops) kind bytes.now frequency) result state image ops reply }
{
    c_append::drivelog_append(state, image, ops, kind, bytes, frequency, reply)
}
