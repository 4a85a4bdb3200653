// Reads packs, one a line, and prints for each the answers of the two engines of the check and whether
// they are the same: `passes`, or 27 with the pair and e, v, i and f of the least number. A pack that
// is not read gets `!` and the number and place of its refusal.
#![tactic(auto)]

ghost use Rattle.std.specs.Prelude.{◌≡◌, ◌↔◌, true};
ghost use Rattle.pack_rules.specs.Held.{held_rules};
ghost use Rattle.check_laws.specs.Check.{check_of};

use answer::Refusal;
use check_laws::Clash;
use pack_rules::Pack;
use std::io;
use std::io::Read;

// What the two engines answer for one pack.
#[derive(Clone, Copy)]
pub struct Answers {
    pub fast: Result<(), Clash>,
    pub plain: Result<(), Clash>,
}

// Both answers: they are equal, for every pack.
fn ask_both(pack: &Pack) -> Answers
    ensures { (result.fast ≡ result.plain) × (result.plain ≡ check_of (held_rules pack.now)) }
{
    Answers {
        fast: check_pairs::check(pack),
        plain: check_plain::check(pack),
    }
}

// Whether they are the same.
fn are_same(a: Answers) -> bool
    ensures { (result ≡ true) ↔ (a.fast ≡ a.plain) }
{
    a.fast == a.plain
}

fn print_figure(rt: &impl Print, x: u64) -> io::Result<()> {
    print!(rt; " {x}")
}

fn print_clash(rt: &impl Print, clash: Clash) -> io::Result<()> {
    let x = clash.witness;
    rt.write_all(b" 27")?;
    print_figure(rt, u64::from(clash.pair.first))?;
    print_figure(rt, u64::from(clash.pair.second))?;
    print_figure(rt, u64::from(x.e))?;
    print_figure(rt, u64::from(x.v.0))?;
    print_figure(rt, x.i)?;
    print_figure(rt, x.f.0)
}

fn print_checked(rt: &impl Print, checked: Result<(), Clash>) -> io::Result<()> {
    match checked {
        Ok(()) => rt.write_all(b" passes"),
        Err(clash) => print_clash(rt, clash),
    }
}

fn print_answers(rt: &impl Print, a: Answers) -> io::Result<()> {
    rt.write_all(b"fast")?;
    print_checked(rt, a.fast)?;
    rt.write_all(b", plain")?;
    print_checked(rt, a.plain)?;
    if are_same(a) {
        rt.write_all(b": same\n")
    } else {
        rt.write_all(b": not the same\n")
    }
}

fn print_refusal(rt: &impl Print, r: Refusal) -> io::Result<()> {
    rt.write_all(b"!")?;
    print_figure(rt, u64::from(answer_table::number(r)))?;
    let f = answer_lists::figures(r);
    if 0 < f.count {
        print_figure(rt, f.values[0])?;
    }
    rt.write_all(b"\n")
}

fn print_check(rt: &impl Print, text: &[u8]) -> io::Result<()> {
    let mut pack = pack_rules::empty();
    match pack_reader::read_pack(text, &mut pack) {
        Ok(()) => print_answers(rt, ask_both(&pack)),
        Err(refusal) => print_refusal(rt, refusal),
    }
}

// Each table goes over its own lines: what it does with one is all that there is to it.
fn print_all(rt: &impl Print, input: &[u8]) -> io::Result<()> {
    for line in input.split_inclusive(|b| *b == b'\n') {
        print_check(rt, line.strip_suffix(b"\n").unwrap_or(line))?;
    }
    Ok(())
}

fn main(rt: HostRuntime) -> io::Result<()> {
    let mut buffer = [0u8; 65_536];
    let mut rest = &mut buffer[..];
    let held = io::copy(&mut rt.stdin().take(65_536), &mut rest)?;
    print_all(&rt, decimal::cut::upto(&buffer, held as usize))
}
