// What the pack check answers, and the laws of its search. There are types and limits here.
//
// specs/Check.antt is the definition, a search over all admitted numbers in document 01's order;
// specs/Fast.antt is the search that is run, part by part, and proofs/FastIs.antt shows that they agree;
// specs/Levels.antt sorts the relations by the power of ten that they ask.
// specs/Seek.antt says what the least number of a test is, specs/Segments.antt how the next number of a
// level is found from its segments. specs/Read.antt says what stretches of a pack's arrays hold.
#![tactic(auto)]

pub mod limits;

ghost use Rattle.std.specs.Prelude.{◌≡◌, ◌+◌, ◌<◌};
ghost use Rattle.pack_rules.specs.Room.{rule_room};

use answer::{Pair, Witness};
use decimal::Places;

// Two rules that one admitted number meets, and that number.
#[derive(Clone, Copy, PartialEq, Eq)]
pub struct Clash {
    pub pair: Pair,
    pub witness: Witness,
}

impl Clash {
    // That of the rules at the indices p and q, which a pair counts from 1.
    pub fn of_rules(p: usize, q: usize, witness: Witness) -> Clash
        requires { (p < rule_room) × (q < rule_room) }
        ensures { result ≡ record { pair = record { first = p + 1; second = q + 1 }; witness = witness } }
    {
        Clash {
            pair: Pair {
                first: (p + 1) as u8,
                second: (q + 1) as u8,
            },
            witness,
        }
    }
}

// The first rule behind a rule that clashes with it, and the number that meets both; `at` is past the
// rules where none does: the definition `answered` compares it with their count.
#[derive(Clone, Copy)]
pub struct LaterClash {
    pub at: usize,
    pub spot: Witness,
}

// A search for a number x: n, i, f and t are each x times their factor, or no part of the search where
// it is 0. Where `odd` is true, x must not end in the digit 0.
#[derive(Clone, Copy)]
pub struct Query {
    pub n: u64,
    pub i: u64,
    pub f: u64,
    pub t: u64,
    pub odd: bool,
}

// Two stretches of a pack's relations, which together are one clause: those at `from` to before `to`,
// and those at `start` to before `stop`.
#[derive(Clone, Copy)]
pub struct Span {
    pub from: usize,
    pub to: usize,
    pub start: usize,
    pub stop: usize,
}

// A number's v: from `least` to `most`.
#[derive(Clone, Copy)]
pub struct Bounds {
    pub least: Places,
    pub most: Places,
}

// No number below these can be: i where f is 0, i where it is not, and t.
#[derive(Clone, Copy)]
pub struct Floors {
    pub whole: u64,
    pub part: u64,
    pub tail: u64,
}
