// What a token closes, and how the counts of what has been read change by that.
//
// specs/Counts.antt has both as definitions; the functions are those. Every function is total.
#![tactic(auto, using(pack_token::proofs::Spellings::spellings))]

ghost use Rattle.std.specs.Prelude.{◌≡◌};
ghost use Rattle.pack_counts.specs.Counts.{more_if, zero_if, ends_bare, ends_relation, counts_after};

use pack_grammar::MAX_BYTES;

// How many ranges, relations, clauses and rules the arrays hold; how many values the open relation,
// relations the open clause and clauses the open rule has.
#[derive(Clone, Copy, PartialEq, Eq, Default)]
pub struct Counts {
    pub ranges: usize,
    pub relations: usize,
    pub clauses: usize,
    pub rules: usize,
    pub values: usize,
    pub joined: usize,
    pub parted: usize,
}

// What a token closes.
#[derive(Clone, Copy, PartialEq, Eq)]
pub struct Closes {
    pub relation: bool,
    pub clause: bool,
    pub rule: bool,
}

pub const NOTHING: Closes = Closes {
    relation: false,
    clause: false,
    rule: false,
};

// One more where the test holds, of what a pack has fewer of than bytes.
fn more_if(more: bool, n: usize) -> usize
    ensures { result ≡ more_if more n }
{
    if more && n < MAX_BYTES { n + 1 } else { n }
}

fn zero_if(zero: bool, n: usize) -> usize
    ensures { result ≡ zero_if zero n }
{
    if zero { 0 } else { n }
}

// What a token closes behind `other:`.
pub fn ends_bare(t: &[u8]) -> Closes
    ensures { result ≡ ends_bare t.now }
{
    Closes {
        rule: matches!(t, b";"),
        ..NOTHING
    }
}

// What a token closes behind a value or range.
pub fn ends_relation(t: &[u8]) -> Closes
    ensures { result ≡ ends_relation t.now }
{
    match t {
        b"and" => Closes {
            relation: true,
            ..NOTHING
        },
        b"or" => Closes {
            relation: true,
            clause: true,
            ..NOTHING
        },
        b";" => Closes {
            relation: true,
            clause: true,
            rule: true,
        },
        _ => NOTHING,
    }
}

// The counts behind a token, count by count.
pub fn counts_each(c: Counts, value: bool, x: Closes) -> Counts
    ensures { result ≡ counts_after c value x }
{
    Counts {
        ranges: more_if(value, c.ranges),
        relations: more_if(x.relation, c.relations),
        clauses: more_if(x.clause, c.clauses),
        rules: more_if(x.rule, c.rules),
        values: zero_if(x.relation, more_if(value, c.values)),
        joined: zero_if(x.clause, more_if(x.relation, c.joined)),
        parted: zero_if(x.rule, more_if(x.clause, c.parted)),
    }
}
