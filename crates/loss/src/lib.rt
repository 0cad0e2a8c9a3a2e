// How many completed records a power failure can lose (specs/LossBound.antt, proofs/). It has no code.
#![tactic(auto)]
