// Demand 3 for a program in C with append among its calls: a run of them, with power failures, is one that append's crash
// theorem speaks of. The statements are in specs/CAppendRun.antt, their proofs in proofs/. It has no code.
#![tactic(auto)]
