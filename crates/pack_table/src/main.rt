// Reads packs, one a line, and prints for each `ok` and how many rules it has, or `!` and the number
// and place of its refusal.
#![tactic(auto)]

use answer::Refusal;
use pack_rules::Pack;
use std::io;
use std::io::Read;

fn print_refusal(rt: &impl Print, r: Refusal) -> io::Result<()> {
    let number = answer_table::number(r);
    print!(rt; "! {number}")?;
    let f = answer_lists::figures(r);
    if 0 < f.count {
        let place = f.values[0];
        print!(rt; " {place}")?;
    }
    println!(rt)
}

// The reader takes a pack whatever it held, so that one serves all lines.
fn print_reading(rt: &impl Print, text: &[u8], pack: &mut Pack) -> io::Result<()> {
    match pack_reader::read_pack(text, pack) {
        Ok(()) => {
            let count = pack.count;
            println!(rt; "ok {count}")
        }
        Err(refusal) => print_refusal(rt, refusal),
    }
}

// Each table goes over its own lines: what it does with one is all that there is to it.
fn print_all(rt: &impl Print, input: &[u8]) -> io::Result<()> {
    let mut pack = pack_rules::empty();
    for line in input.split_inclusive(|b| *b == b'\n') {
        print_reading(rt, line.strip_suffix(b"\n").unwrap_or(line), &mut pack)?;
    }
    Ok(())
}

fn main(rt: HostRuntime) -> io::Result<()> {
    let mut buffer = [0u8; 65_536];
    let mut rest = &mut buffer[..];
    let held = io::copy(&mut rt.stdin().take(65_536), &mut rest)?;
    print_all(&rt, decimal::cut::upto(&buffer, held as usize))
}
