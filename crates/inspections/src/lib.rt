// A replacement and the inspection that it rests on: what stays listed of them over power failures, in specs/, with the
// proof in proofs/. It has no code.
#![tactic(auto)]
