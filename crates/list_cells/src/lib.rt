// What one bad cell can do to the text that loglist prints: the claims are in specs/CellText.antt. It has no code.
#![tactic(auto)]
