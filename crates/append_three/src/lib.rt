// Three modules that hold one log, with append among the calls: the theorem about what stays listed. The statement is in
// specs/AppendThree.antt, its proof in proofs/. It has no code.
#![tactic(auto)]
