// What a symbol record is, as a grammar on bytes (specs/), and that read_symbols refuses exactly what
// it must and find gives what the records hold (proofs/). It has no code.
#![tactic(auto)]
