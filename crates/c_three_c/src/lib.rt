// The exports of crate c_three, the recovery of three for C, that include/drivelog.h declares: each is the call of its name, with the same contract.
#![tactic(auto)]

ghost use Rattle.c_three.specs.ThreeThrough.{ThreeThrough};

// Recovery of three: the state, in the words, of the best of three images, whatever the words held. Bit i of `present`
// says that module i is there.
#[unsafe(no_mangle)]
pub extern "C" fn drivelog_recover_three(
    state: &mut [u64],
    image0: &mut [u64],
    image1: &mut [u64],
    image2: &mut [u64],
    present: u64,
    ops0: &mut [u64],
    ops1: &mut [u64],
    ops2: &mut [u64],
    reply: &mut [u64],
) -> i64
    ensures { ThreeThrough present result state image0 image1 image2 ops0 ops1 ops2 reply }
{
    c_three::drivelog_recover_three(
        state, image0, image1, image2, present, ops0, ops1, ops2, reply,
    )
}
