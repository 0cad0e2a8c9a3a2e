// The exports of crate c_vet, vet for C, that include/drivelog.h declares: each is the call of its name, with the same contract.
#![tactic(auto)]

ghost use Rattle.c_vet.specs.VetThrough.{VetCall};

// Vet: returns how many ops there are, if all of them may be carried out at once, with no call between.
#[unsafe(no_mangle)]
pub extern "C" fn drivelog_vet(state: &[u64], image: &[u64], ops: &[u64], reply: &mut [u64]) -> i64
    ensures { VetCall result state.now image.now ops.now reply }
{
    c_vet::drivelog_vet(state, image, ops, reply)
}
