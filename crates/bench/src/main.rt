// The bench program: a job a line on standard input, an answer a line on standard output.
//
// It only reads and writes; the libraries line and bench_line cut the lines and answer them. Where a read or
// a write fails it ends with that error, and writes nothing more.
#![tactic(auto)]

use decimal::cut::{after, upto};
use line::Cut;
use std::io;
use std::io::{Read, Write};

// Answers are written out once so many bytes of them are there: the longest answer fits behind.
const ENOUGH: usize = 61_440;

#[derive(Default, Drop)]
struct State {
    // the bytes of the buffer that are read and not yet answered
    from: usize,
    held: usize,
    // a part of the line that they begin with was dropped
    long: bool,
    // the input has ended
    last: bool,
    // how many bytes of answers wait to be written
    used: usize,
}

impl State {
    // Writes what waits.
    fn flush(&mut self, output: &mut impl Write, out: &[u8]) -> io::Result<()> {
        output.write_all(upto(out, self.used))?;
        self.used = 0;
        Ok(())
    }

    // Answers the line of n bytes that `rest` begins with.
    fn answer(
        &mut self,
        output: &mut impl Write,
        rest: &[u8],
        out: &mut [u8],
        n: usize,
    ) -> io::Result<()> {
        self.used = bench_line::append_answer(out, self.used, upto(rest, n), self.long);
        self.long = false;
        self.from = line::next_line(self.from, n, self.held);
        if ENOUGH < self.used {
            self.flush(output, out)?;
        }
        Ok(())
    }

    // Reads more behind the bytes held, once the answers that wait are written. Answers whether the
    // buffer had room for more.
    fn refill(
        &mut self,
        input: &mut impl Read,
        output: &mut impl Write,
        buffer: &mut [u8],
        out: &[u8],
    ) -> io::Result<bool> {
        self.flush(output, out)?;
        let kept = line::keep_rest(buffer, self.from, self.held);
        self.from = 0;
        self.held = kept;
        if buffer.len() <= kept {
            return Ok(false);
        }
        let got = input.read(&mut buffer[kept..])?;
        self.last = got == 0;
        self.held = line::held_after(kept, got, buffer.len());
        Ok(true)
    }

    // One turn: a line is answered, or more is read, or all is done. Answers whether to go on.
    fn turn(
        &mut self,
        input: &mut impl Read,
        output: &mut impl Write,
        buffer: &mut [u8],
        out: &mut [u8],
    ) -> io::Result<bool> {
        let rest = after(upto(buffer, self.held), self.from);
        match line::cut_line(rest, self.long, self.last) {
            Cut::Line(n) => {
                self.answer(output, rest, out, n)?;
                Ok(true)
            }
            Cut::Over => {
                self.from = 0;
                self.held = 0;
                self.long = true;
                Ok(true)
            }
            Cut::More => self.refill(input, output, buffer, out),
            Cut::Done => {
                self.flush(output, out)?;
                Ok(false)
            }
        }
    }
}

fn main(rt: HostRuntime) -> io::Result<()> {
    let mut input = rt.stdin();
    let mut output = rt.stdout();
    let mut buffer = [0u8; 65_536];
    let mut out = [0u8; 65_536];
    let mut state = State::default();
    // A proved loop has to end: no run uses up so many turns.
    for _ in 0..u64::MAX {
        if !state.turn(&mut input, &mut output, &mut buffer, &mut out)? {
            break;
        }
    }
    Ok(())
}
