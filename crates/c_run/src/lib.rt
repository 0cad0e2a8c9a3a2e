// Demand 3 for a program in C: a run of the calls for C, with power failures, is one that the crash theorem speaks of.
// The statements are in specs/CRun.antt, their proofs in proofs/. It has no code.
#![tactic(auto)]
