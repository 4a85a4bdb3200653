// Reads symbol records, one a line, and prints for each `good`, or `!` and the number of its
// refusal, and then the bytes of the bodies that the finder gives for the seven symbols.
//
// The input holds, besides rows of our own, the symbol records of Unicode CLDR 41 (Unicode, Inc. License
// Agreement for Data Files and Software, (c) 1991-2022 Unicode, Inc.).
#![tactic(auto)]

use answer::Refusal;
use decimal::cut::upto;
use std::io;
use std::io::Read;
use symbols::Symbol;

const SYMBOLS: [Symbol; 7] = [
    Symbol::Decimal,
    Symbol::Group,
    Symbol::Minus,
    Symbol::Plus,
    Symbol::Percent,
    Symbol::Permille,
    Symbol::Minimum,
];

fn print_judged(rt: &impl Print, judged: Result<(), Refusal>) -> io::Result<()> {
    match judged {
        Ok(()) => print!(rt; "good"),
        Err(refusal) => {
            let number = answer_table::number(refusal);
            print!(rt; "! {number}")
        }
    }
}

fn print_body(rt: &impl Print, body: &[u8]) -> io::Result<()> {
    print!(rt; " /")?;
    for byte in body {
        print!(rt; " {byte}")?;
    }
    Ok(())
}

fn print_record(rt: &impl Print, record: &[u8]) -> io::Result<()> {
    print_judged(rt, symbols::read_symbols(record))?;
    for symbol in SYMBOLS {
        print_body(rt, symbols::find(record, &symbols::STANDARD, symbol))?;
    }
    println!(rt)
}

// Each table goes over its own lines: what it does with one is all that there is to it.
fn print_all(rt: &impl Print, input: &[u8]) -> io::Result<()> {
    for line in input.split_inclusive(|b| *b == b'\n') {
        print_record(rt, line.strip_suffix(b"\n").unwrap_or(line))?;
    }
    Ok(())
}

fn main(rt: HostRuntime) -> io::Result<()> {
    let mut buffer = [0u8; 65_536];
    let mut rest = &mut buffer[..];
    let held = io::copy(&mut rt.stdin().take(65_536), &mut rest)?;
    print_all(&rt, upto(&buffer, held as usize))
}
