// Records in document 01's habit: one byte of kind, then a body whose length the kind fixes, to the
// end.
//
// specs/Entries.antt says what a record holds, by two functions of a kind byte: its body's length and
// what it stands for. specs/Spelled.antt says the same as relations, and proofs/ that both agree. A
// crate with kinds of its own has the match of a kind byte and the loops; each turn of a loop is a law
// of proofs/Walks.antt.
#![tactic(auto)]

ghost use Rattle.std.specs.Prelude.{◌≡◌};
ghost use Rattle.records.specs.Entries.{fitting, head_in};

// An entry: what its kind stands for, and its body's length.
#[derive(Clone, Copy)]
pub struct Head<N> {
    pub name: N,
    pub len: usize,
}

// The entry with this name, whose kind fixes m, in front of n bytes.
pub fn head_in<N: Copy>(name: N, m: usize, n: usize) -> Option<Head<N>>
    ensures { result ≡ head_in name (fitting m n) }
{
    if 0 < m && m < n {
        Some(Head { name, len: m })
    } else {
        None
    }
}
