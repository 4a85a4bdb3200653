// What a printed text is, as a relation on bytes (specs/), and that print writes it, and refuses
// exactly where it must (proofs/). It has no code.
#![tactic(auto)]
