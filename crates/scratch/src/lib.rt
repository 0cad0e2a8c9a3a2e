// Ops that somebody else made, such as notes in free words: which of them may be carried out (specs/Vet.antt), and that
// these do no harm (specs/ScratchSafe.antt). It has no code of its own.
#![tactic(auto)]
