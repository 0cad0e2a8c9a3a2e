// What one bad cell can do to what a scan finds: the claims are in specs/OneCell.antt, their proofs in proofs/. It has no
// code.
#![tactic(auto)]
