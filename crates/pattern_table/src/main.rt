// Reads patterns, one a line, and prints what is read of each: start and length of prefix, number
// part and suffix, least integer digits, least and most fraction digits, both group sizes, step and
// factor, and start and length of the negative subpattern's affixes where it has one; or `!` and the
// number of its refusal.
//
// The input holds, besides rows of our own, the patterns of Unicode CLDR 41 (Unicode, Inc. License
// Agreement for Data Files and Software, (c) 1991-2022 Unicode, Inc.).
#![tactic(auto)]

use answer::Refusal;
use decimal::cut::upto;
use pattern_reader::{Negative, Pattern, Span};
use std::io;
use std::io::Read;

fn print_span(rt: &impl Print, span: Span) -> io::Result<()> {
    let start = span.start;
    let len = span.len;
    print!(rt; "{start} {len} ")
}

fn print_negative(rt: &impl Print, negative: Negative) -> io::Result<()> {
    match negative {
        Negative::MinusSymbol => Ok(()),
        Negative::Own(prefix, suffix) => {
            print_span(rt, prefix)?;
            print_span(rt, suffix)
        }
    }
}

fn print_pattern(rt: &impl Print, p: Pattern) -> io::Result<()> {
    for span in [p.prefix, p.number, p.suffix] {
        print_span(rt, span)?;
    }
    for digits in [p.least, p.fraction, p.most, p.primary, p.secondary] {
        print!(rt; "{digits} ")?;
    }
    for figure in [p.step, p.factor] {
        print!(rt; "{figure} ")?;
    }
    print_negative(rt, p.negative)
}

fn print_reading(rt: &impl Print, reading: Result<Pattern, Refusal>) -> io::Result<()> {
    match reading {
        Ok(pattern) => print_pattern(rt, pattern)?,
        Err(refusal) => {
            let number = answer_table::number(refusal);
            print!(rt; "! {number} ")?;
        }
    }
    println!(rt)
}

// Each table goes over its own lines: what it does with one is all that there is to it.
fn print_all(rt: &impl Print, input: &[u8]) -> io::Result<()> {
    for line in input.split_inclusive(|b| *b == b'\n') {
        let text = line.strip_suffix(b"\n").unwrap_or(line);
        print_reading(rt, pattern_reader::read_pattern(text))?;
    }
    Ok(())
}

fn main(rt: HostRuntime) -> io::Result<()> {
    let mut buffer = [0u8; 65_536];
    let mut rest = &mut buffer[..];
    let held = io::copy(&mut rt.stdin().take(65_536), &mut rest)?;
    print_all(&rt, upto(&buffer, held as usize))
}
