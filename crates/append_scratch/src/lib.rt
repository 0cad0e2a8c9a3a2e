// Ops of somebody else, with append among the calls (specs/AppendScratch.antt, proofs/). It has no code.
#![tactic(auto)]
