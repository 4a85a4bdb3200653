// Reads a rule pack: its rules into flat arrays, or refusal 20 to 26 with its place.
//
// `read_pack` goes once over the bytes, token by token: the walk says what may follow (21) and finds
// 22 to 26; each relation, clause and rule is stored when the token behind it closes it. Crate
// pack_columns has the stores, crate pack_verdict the answer at the end. specs/Board.antt says how a
// token changes the arrays. The pack is the caller's, some 22 KB, and is lent: answered by value beside
// a refusal it would be copied, which costs what reading a small pack does.
#![tactic(auto)]

ghost use Rattle.std.specs.Prelude.{◌≡◌};
ghost use Rattle.pack_grammar.specs.Reader.{read_pack};
ghost use Rattle.pack_reader.specs.Answer.{ReadAs};
ghost use Rattle.pack_reader.specs.Board.{token_at, start_walk, within4096};

use answer::Refusal;
use decimal::cut::{after, upto};
use pack_columns::{put_if, put_row};
use pack_counts::Counts;
use pack_faults::Mark;
use pack_grammar::MAX_BYTES;
use pack_phase::Phase;
use pack_rules::Pack;
use pack_token::{piece_len, skip_white};
use pack_verdict::judge_all;
use pack_walk::{Current, Walk, step_after};

// The token of m bytes at a place of s; behind s, its end.
fn token_at<'a>(s: &'a [u8], end: &'a [u8], at: usize, m: usize) -> &'a [u8]
    ensures { result.now ≡ token_at s.now end.now at m }
{
    if at < s.len() {
        upto(after(s, at), m)
    } else {
        end
    }
}

// The text, or nothing of it where it is too long.
fn within(s: &[u8]) -> &[u8]
    ensures { result.now ≡ within4096 s.now }
{
    if MAX_BYTES < s.len() { &s[..0] } else { s }
}

fn start() -> Walk
    ensures { result ≡ start_walk }
{
    Walk {
        phase: Phase::Name,
        counts: Counts::default(),
        current: Current::default(),
        mark: Mark::default(),
    }
}

// Reads a pack, any bytes: its rules into `pack`, whatever that held; or refusal 20 to 26, and `pack`
// is left without rules.
pub fn read_pack(text: &[u8], pack: &mut Pack) -> Result<(), Refusal>
    ensures { ReadAs (read_pack text.now) result pack.new }
{
    pack.count = 0;
    let s = within(text);
    let end = b";";
    let mut w = start();
    let mut at = skip_white(s, 0);
    // By place: the step depends on how long the token and the white space behind it are.
    while at <= s.len() {
        let m = piece_len(s, at, 0);
        let t = token_at(s, end, at, m);
        let c = w.counts;
        let o = w.current;
        let g = step_after(t, at, &pack.keyword, w);
        let d = g.walk.counts;
        let x = g.closes;
        put_if(g.starts, &mut pack.low, c.ranges, g.value);
        put_if(g.starts, &mut pack.high, c.ranges, g.value);
        put_if(g.ends, &mut pack.high, c.ranges.saturating_sub(1), g.value);
        put_row(x.relation, &mut pack.columns, c.relations, o, c.ranges);
        put_if(x.clause, &mut pack.relations, c.clauses, d.relations);
        put_if(x.rule, &mut pack.keyword, c.rules, o.key);
        put_if(x.rule, &mut pack.clauses, c.rules, d.clauses);
        w = g.walk;
        at = skip_white(s, at + m);
    }
    pack.count = judge_all(text.len(), w)?;
    Ok(())
}
