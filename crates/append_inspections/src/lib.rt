// Replacements and their inspections, with append among the calls (specs/, proofs/). It has no code.
#![tactic(auto)]
