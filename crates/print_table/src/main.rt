// Prints numbers through patterns: each line has a letter, a pattern and a number, parted by tabs, with
// the standard symbols after `f` and the symbols 11 2C 21 20 after any other letter. Writes the text,
// or `!` and the number and figures of the refusal.
#![tactic(auto)]

use answer::Refusal;
use decimal::cut::{after, upto};
use decimal::scan::run_until;
use std::io;
use std::io::Read;

fn write_answer(rt: &impl Print, r: Result<usize, Refusal>, out: &[u8]) -> io::Result<()> {
    match r {
        Ok(n) => rt.write_all(upto(out, n))?,
        Err(refusal) => {
            let number = answer_table::number(refusal);
            print!(rt; "! {number}")?;
            let figures = answer_lists::figures(refusal);
            for figure in figures.values.iter().take(figures.count) {
                print!(rt; " {figure}")?;
            }
        }
    }
    println!(rt)
}

fn print_line(rt: &impl Print, line: &[u8]) -> io::Result<()> {
    let symbols: &[u8] = if line.starts_with(b"f") {
        b""
    } else {
        b"\x11\x2C\x21\x20"
    };
    let rest = after(line, 2);
    let n = run_until(rest, b'\t');
    let number = after(after(rest, n), 1);
    let mut out = [0u8; 2048];
    let r = print::print(symbols, upto(rest, n), number, &mut out);
    write_answer(rt, r, &out)
}

// Each table goes over its own lines: what it does with one is all that there is to it.
fn print_all(rt: &impl Print, input: &[u8]) -> io::Result<()> {
    for line in input.split_inclusive(|b| *b == b'\n') {
        print_line(rt, line.strip_suffix(b"\n").unwrap_or(line))?;
    }
    Ok(())
}

fn main(rt: HostRuntime) -> io::Result<()> {
    let mut buffer = [0u8; 65_536];
    let mut rest = &mut buffer[..];
    let held = io::copy(&mut rt.stdin().take(65_536), &mut rest)?;
    print_all(&rt, upto(&buffer, held as usize))
}
