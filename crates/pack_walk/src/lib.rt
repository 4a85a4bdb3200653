// Where the reader of a pack stands, and how a token changes that: phase, counts, what is being read,
// and the first fault.
//
// specs/Steps.antt has the change as definitions; the functions are those. Every function is total.
#![tactic(auto, using(pack_token::proofs::Spellings::spellings))]

ghost use Rattle.std.specs.Prelude.{◌≡◌, false, []};
ghost use Rattle.pack_token.specs.Spelling.{same};
ghost use Rattle.pack_token.specs.Token.{differ};
ghost use Rattle.pack_grammar.specs.Grammar.{other};
ghost use Rattle.pack_counts.specs.Counts.{nothing};
ghost use Rattle.pack_walk.specs.Steps.{current_after, step_by, step_after};

use answer::PackRow;
use pack_counts::{Closes, Counts, NOTHING, counts_each, ends_bare, ends_relation};
use pack_faults::{
    Mark, capped_value, held_before, is_modulus, keyword_number, mark_after, name_row, operand_row,
    upper_row, value_row,
};
use pack_phase::{Phase, next_phase};
use pack_token::first_byte;

// What is being read: the rule's keyword number, the relation's operand, modulus and sign, the last value, and
// whether the token before was `other`.
#[derive(Clone, Copy, Default)]
pub struct Current {
    pub key: u8,
    pub operand: u8,
    pub modulus: u32,
    pub negated: bool,
    pub low: u32,
    pub other: bool,
}

#[derive(Clone, Copy)]
pub struct Walk {
    pub phase: Phase,
    pub counts: Counts,
    pub current: Current,
    pub mark: Mark,
}

// What a token does: the walk behind it, its value where the phase has a number next (else 0), what it
// closes, and whether it starts a range or ends one.
#[derive(Clone, Copy)]
pub struct Step {
    pub walk: Walk,
    pub value: u32,
    pub closes: Closes,
    pub starts: bool,
    pub ends: bool,
}

fn is_other(t: &[u8]) -> bool
    ensures { result ≡ same t.now other }
{
    matches!(t, b"other")
}

fn is_differ(t: &[u8]) -> bool
    ensures { result ≡ same t.now differ }
{
    matches!(t, b"!=")
}

// What is being read, but for whether the token is `other`.
fn kept(o: Current, t: &[u8]) -> Current
    ensures { result ≡ current_after o Phase.Colon t.now 0 o.key }
{
    Current {
        other: is_other(t),
        ..o
    }
}

// What a token does that has no value, closes nothing and ends nothing.
fn plain(walk: Walk) -> Step
    ensures { result ≡ record { walk = walk; value = 0; closes = nothing; starts = false; ends = false } }
{
    Step {
        walk,
        value: 0,
        closes: NOTHING,
        starts: false,
        ends: false,
    }
}

// A keyword; `keys`: the keyword numbers of the rules so far.
fn at_name(q: Phase, t: &[u8], at: usize, keys: &[u8], w: Walk) -> Step
    ensures { result ≡ step_by Phase.Name nothing q t.now at keys.now w }
{
    let key = keyword_number(t);
    let again = held_before(keys, w.counts.rules, key);
    plain(Walk {
        phase: q,
        current: Current {
            key,
            ..kept(w.current, t)
        },
        mark: mark_after(w.mark, at, name_row(key, again), at),
        ..w
    })
}

// `:`, which changes nothing but the phase.
fn at_colon(q: Phase, t: &[u8], at: usize, w: Walk) -> Step
    ensures { result ≡ step_by Phase.Colon nothing q t.now at [] w }
{
    plain(Walk {
        phase: q,
        current: kept(w.current, t),
        mark: mark_after(w.mark, at, None, at),
        ..w
    })
}

fn at_operand(q: Phase, t: &[u8], at: usize, w: Walk) -> Step
    ensures { result ≡ step_by Phase.Operand nothing q t.now at [] w }
{
    let row = operand_row(w.counts.parted, w.counts.joined);
    plain(Walk {
        phase: q,
        current: Current {
            operand: first_byte(t),
            modulus: 0,
            ..kept(w.current, t)
        },
        mark: mark_after(w.mark, at, row, at),
        ..w
    })
}

// `%`, `=` or `!=`.
fn at_sign(q: Phase, t: &[u8], at: usize, w: Walk) -> Step
    ensures { result ≡ step_by Phase.ModulusOrSign nothing q t.now at [] w }
{
    plain(Walk {
        phase: q,
        current: Current {
            negated: is_differ(t),
            ..kept(w.current, t)
        },
        mark: mark_after(w.mark, at, None, at),
        ..w
    })
}

fn at_modulus(q: Phase, t: &[u8], at: usize, w: Walk) -> Step
    ensures { result ≡ step_by Phase.Modulus nothing q t.now at [] w }
{
    let value = capped_value(t);
    let row = if is_modulus(value) {
        None
    } else {
        Some(PackRow::UnlistedModulus)
    };
    let walk = Walk {
        phase: q,
        current: Current {
            modulus: value,
            ..kept(w.current, t)
        },
        mark: mark_after(w.mark, at, row, at),
        ..w
    };
    Step {
        value,
        ..plain(walk)
    }
}

// A value, which starts a range.
fn at_value(q: Phase, t: &[u8], at: usize, w: Walk) -> Step
    ensures { result ≡ step_by Phase.Value nothing q t.now at [] w }
{
    let value = capped_value(t);
    let walk = Walk {
        phase: q,
        counts: counts_each(w.counts, true, NOTHING),
        current: Current {
            low: value,
            ..kept(w.current, t)
        },
        mark: mark_after(w.mark, at, value_row(value, w.counts.values), at),
    };
    Step {
        value,
        starts: true,
        ..plain(walk)
    }
}

// What follows a relation or `other:`, and closes x.
fn at_close(x: Closes, q: Phase, t: &[u8], at: usize, w: Walk) -> Step
    ensures { result ≡ step_by Phase.DotsOrMore x q t.now at [] w }
{
    let walk = Walk {
        phase: q,
        counts: counts_each(w.counts, false, x),
        current: kept(w.current, t),
        mark: mark_after(w.mark, at, None, at),
    };
    Step {
        closes: x,
        ..plain(walk)
    }
}

// The upper end of a range.
fn at_upper(q: Phase, t: &[u8], at: usize, w: Walk) -> Step
    ensures { result ≡ step_by Phase.Upper nothing q t.now at [] w }
{
    let value = capped_value(t);
    let walk = Walk {
        phase: q,
        current: kept(w.current, t),
        mark: mark_after(w.mark, at, upper_row(value, w.current.low), at),
        ..w
    };
    Step {
        value,
        ends: true,
        ..plain(walk)
    }
}

// Any token where nothing makes the pack well-formed.
fn at_dead(t: &[u8], at: usize, w: Walk) -> Step
    ensures { result ≡ step_by Phase.Dead nothing Phase.Dead t.now at [] w }
{
    plain(Walk {
        phase: Phase::Dead,
        current: kept(w.current, t),
        mark: mark_after(w.mark, w.mark.stop, None, at),
        ..w
    })
}

// What the token t at a place does; `keys`: the keyword numbers of the rules so far. Each arm asks
// next_phase of its own phase, so that one test of the phase serves both.
pub fn step_after(t: &[u8], at: usize, keys: &[u8], w: Walk) -> Step
    ensures { result ≡ step_after t.now at keys.now w }
{
    let p = w.phase;
    let other = w.current.other;
    match p {
        Phase::Name => at_name(next_phase(Phase::Name, other, t), t, at, keys, w),
        Phase::Colon => at_colon(next_phase(Phase::Colon, other, t), t, at, w),
        Phase::Nothing => {
            let q = next_phase(Phase::Nothing, other, t);
            at_close(ends_bare(t), q, t, at, w)
        }
        Phase::Operand => at_operand(next_phase(Phase::Operand, other, t), t, at, w),
        Phase::ModulusOrSign => at_sign(next_phase(Phase::ModulusOrSign, other, t), t, at, w),
        Phase::Modulus => at_modulus(next_phase(Phase::Modulus, other, t), t, at, w),
        Phase::Sign => at_sign(next_phase(Phase::Sign, other, t), t, at, w),
        Phase::Value => at_value(next_phase(Phase::Value, other, t), t, at, w),
        Phase::DotsOrMore => {
            let q = next_phase(Phase::DotsOrMore, other, t);
            at_close(ends_relation(t), q, t, at, w)
        }
        Phase::Upper => at_upper(next_phase(Phase::Upper, other, t), t, at, w),
        Phase::More => {
            let q = next_phase(Phase::More, other, t);
            at_close(ends_relation(t), q, t, at, w)
        }
        Phase::Dead => at_dead(t, at, w),
    }
}
