// The starred rows of document 01's "Numbers on the bench card", shown from the definitions: see
// specs/Card.antt and proofs/Shown.antt.
#![tactic(auto)]
