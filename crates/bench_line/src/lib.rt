// The answers to the bench program's lines.
//
// specs/Lines.antt says what the program writes for a whole input, specs/Stream.antt what it writes of
// an input in pieces; proofs/Streams.antt shows that this is the same, however the input is cut.
#![tactic(auto)]

ghost use Rattle.std.specs.Prelude.{◌≡◌, [], ◌∷◌, take};
ghost use Rattle.decimal.specs.Digits.{numeral};
ghost use Rattle.area.specs.Area.{Wrote};
ghost use Rattle.bench_line.specs.Lines.{unread, spaced, refusal_text, word_text, selection_text, check_text, printed_text, format_text, job_answer};
ghost use Rattle.bench_line.specs.Stream.{cut_answer};
ghost use Rattle.print.specs.Outcome.{outcome};

use answer::{FigureList, Keyword, Refusal};
use decimal::cut::{after, upto};
use line::{JobCut, MAX_LINE, read_job};

// Appends `? ` and a number.
fn append_unread(out: &mut [u8], at: usize, n: u64) -> usize
    ensures { Wrote out.old at (unread n) out.new result }
{
    let mark = area::append(out, at, b"? ");
    let number = area::append_number(out, mark, n);
    area::put(out, number, b'\n')
}

// Appends a space and a number.
fn append_spaced(out: &mut [u8], at: usize, n: u64) -> usize
    ensures { Wrote out.old at (32 ∷ numeral n) out.new result }
{
    let space = area::put(out, at, b' ');
    area::append_number(out, space, n)
}

// Appends figures, each behind a space.
fn append_figures(out: &mut [u8], at: usize, f: FigureList) -> usize
    ensures { Wrote out.old at (spaced (take f.count f.values)) out.new result }
{
    let mut end = at;
    for n in f.values.iter().take(f.count) {
        end = append_spaced(out, end, *n);
    }
    end
}

// Appends the letter of a job, `!`, and the number and figures of a refusal.
fn append_refusal(out: &mut [u8], at: usize, letter: u8, refusal: Refusal) -> usize
    ensures { Wrote out.old at (refusal_text letter refusal) out.new result }
{
    let name = area::put(out, at, letter);
    let mark = area::put(out, name, b'!');
    let number = append_spaced(out, mark, u64::from(answer_table::number(refusal)));
    let figures = append_figures(out, number, answer_lists::figures(refusal));
    area::put(out, figures, b'\n')
}

// Appends `s` and a word.
fn append_word(out: &mut [u8], at: usize, k: Keyword) -> usize
    ensures { Wrote out.old at (word_text k) out.new result }
{
    let word = answer_lists::word(k);
    let name = area::append(out, at, b"s ");
    let end = area::append(out, name, upto(&word.letters, word.len));
    area::put(out, end, b'\n')
}

fn append_selection(out: &mut [u8], at: usize, s: Result<Keyword, Refusal>) -> usize
    ensures { Wrote out.old at (selection_text s) out.new result }
{
    match s {
        Ok(k) => append_word(out, at, k),
        Err(refusal) => append_refusal(out, at, b's', refusal),
    }
}

fn append_check(out: &mut [u8], at: usize, c: Result<(), Refusal>) -> usize
    ensures { Wrote out.old at (check_text c) out.new result }
{
    match c {
        Ok(()) => area::append(out, at, b"c ok\n"),
        Err(refusal) => append_refusal(out, at, b'c', refusal),
    }
}

// Appends `f` and a text.
fn append_text(out: &mut [u8], at: usize, text: &[u8]) -> usize
    ensures { Wrote out.old at (printed_text text.now) out.new result }
{
    let name = area::append(out, at, b"f ");
    let end = area::append(out, name, text);
    area::put(out, end, b'\n')
}

// Prints into an area of its own, and appends the text or the refusal.
fn append_format(out: &mut [u8], at: usize, pattern: &[u8], number: &[u8]) -> usize
    ensures { Wrote out.old at (format_text (outcome [] pattern.now number.now)) out.new result }
{
    let mut text = [0u8; 2048];
    match print::print(b"", pattern, number, &mut text) {
        Ok(n) => append_text(out, at, upto(&text, n)),
        Err(refusal) => append_refusal(out, at, b'f', refusal),
    }
}

// Appends the answer to a line of at most MAX_LINE bytes.
fn append_job(out: &mut [u8], at: usize, line: &[u8]) -> usize
    ensures { Wrote out.old at (job_answer line.now) out.new result }
{
    let fields = after(line, 2);
    match read_job(line) {
        JobCut::SelectAt(n) => {
            // In two cuts: n + 1 has no bound here.
            let number = after(after(fields, n), 1);
            append_selection(out, at, select_text::select(upto(fields, n), number))
        }
        JobCut::CheckAt => append_check(out, at, check_text::check(fields)),
        JobCut::FormatAt(n) => {
            let number = after(after(fields, n), 1);
            append_format(out, at, upto(fields, n), number)
        }
        JobCut::Unknown => append_unread(out, at, 61),
    }
}

// Appends the answer to a line. `long`: a part of the line was dropped, being too long.
pub fn append_answer(out: &mut [u8], at: usize, line: &[u8], long: bool) -> usize
    ensures { Wrote out.old at (cut_answer long line.now) out.new result }
{
    if long || MAX_LINE < line.len() {
        append_unread(out, at, 60)
    } else {
        append_job(out, at, line)
    }
}
