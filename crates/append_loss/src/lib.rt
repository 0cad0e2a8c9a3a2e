// How many completed records a power failure can lose, with append among the calls (specs/AppendLoss.antt, proofs/). It has
// no code.
#![tactic(auto)]
