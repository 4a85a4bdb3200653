// Reads number texts, one a line, and prints each one's sign and operands, i v w f t e, or `!` and
// the number of its refusal.
#![tactic(auto)]

use answer::Refusal;
use decimal::cut::upto;
use number::Number;
use std::io;
use std::io::Read;

fn append_operand(out: &mut [u8], at: usize, n: u64) -> usize {
    let space = area::put(out, at, b' ');
    area::append_number(out, space, n)
}

fn append_number(out: &mut [u8], at: usize, n: Number) -> usize {
    let places = u64::from(n.v.0);
    let trimmed = u64::from(n.w.0);
    let exponent = u64::from(n.e);
    let mut end = area::put(out, at, if n.negative { b'-' } else { b'+' });
    for operand in [n.i, places, trimmed, n.f.0, n.t.0, exponent] {
        end = append_operand(out, end, operand);
    }
    end
}

fn append_reading(out: &mut [u8], at: usize, r: Result<Number, Refusal>) -> usize {
    match r {
        Ok(n) => append_number(out, at, n),
        Err(refusal) => {
            let mark = area::put(out, at, b'!');
            append_operand(out, mark, u64::from(answer_table::number(refusal)))
        }
    }
}

// The readings of all lines, and how many bytes they take.
fn append_all(out: &mut [u8], input: &[u8]) -> usize {
    let mut used = 0;
    for line in input.split_inclusive(|b| *b == b'\n') {
        let text = line.strip_suffix(b"\n").unwrap_or(line);
        let end = append_reading(out, used, number_text::read_number(text));
        used = area::put(out, end, b'\n');
    }
    used
}

fn main(rt: HostRuntime) -> io::Result<()> {
    let mut buffer = [0u8; 65_536];
    let mut rest = &mut buffer[..];
    let held = io::copy(&mut rt.stdin().take(65_536), &mut rest)?;
    let mut out = [0u8; 65_536];
    let used = append_all(&mut out, upto(&buffer, held as usize));
    rt.write_all(upto(&out, used))
}
