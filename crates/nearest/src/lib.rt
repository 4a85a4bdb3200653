// The permitted value nearest to the exact one, ties to the even multiple, over every step and scale
// (specs/), and that there is one such and only one (proofs/). It has no code.
#![tactic(auto)]
