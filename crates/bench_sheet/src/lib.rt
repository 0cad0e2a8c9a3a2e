// Examples of the definitions, by evaluation: document 01's bench sheet (specs/BenchSheet.antt, proofs/BenchRows.antt),
// one history with two power failures that the crash theorem speaks of (proofs/Witness.antt), recoveries of three images
// (proofs/ThreeExamples.antt), and one history of three modules (proofs/ThreeWitness.antt). It has no code.
#![tactic(auto)]
