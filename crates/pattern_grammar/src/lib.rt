// What a pattern is, as a grammar on bytes (specs/), and that read_pattern refuses exactly what it
// must (proofs/). It has no code.
#![tactic(auto)]
