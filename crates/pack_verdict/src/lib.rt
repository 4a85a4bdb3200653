// The answer to a pack, told at its end: how many rules it has, or refusal 20 to 26 with its place.
//
// A walk that has gone over all tokens and a last `;` knows where nothing could follow (21) and the
// first of 22 to 26; 20 goes by the length alone. specs/Verdict.antt has the answer as a definition. The
// entry is judge_all.
#![tactic(auto)]

ghost use Rattle.std.specs.Prelude.{◌≡◌};
ghost use Rattle.pack_verdict.specs.Verdict.{judged_all};

use answer::{PackRow, Place, Refusal};
use pack_grammar::MAX_BYTES;
use pack_phase::Phase;
use pack_walk::Walk;

// The answer at the end of a pack of n bytes: how many rules it has, or why it is not read.
pub fn judge_all(n: usize, w: Walk) -> Result<usize, Refusal>
    ensures { result ≡ judged_all n w }
{
    if MAX_BYTES < n {
        return Err(Refusal::PackTooLong);
    }
    if w.phase != Phase::Name {
        return Err(Refusal::Pack(PackRow::NotAPack, Place(w.mark.stop)));
    }
    match w.mark.fault {
        None => Ok(w.counts.rules),
        Some(fault) => Err(Refusal::Pack(fault.row, fault.at)),
    }
}
