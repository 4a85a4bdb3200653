// The bench program's input in pieces: what is to be done with the bytes held, and what job a line is.
//
// specs/Cuts.antt says where a line ends, specs/Jobs.antt which job it is.
#![tactic(auto)]

ghost use Rattle.std.specs.Prelude.{◌≡◌, ◌+◌, ◌≤◌, min, take, drop};
ghost use Rattle.line.specs.Jobs.{job_of, job_at, job_with, last_field};
ghost use Rattle.line.specs.Cuts.{last_cut, cut_of, Kept};

use decimal::scan::run_until;

pub const MAX_LINE: usize = 8192;

// What is to be done with the bytes held.
#[derive(Clone, Copy)]
pub enum Cut {
    // Answer the line of so many bytes, and go on behind it and its LF.
    Line(usize),
    // The line is too long already: drop the bytes, and remember that.
    Over,
    // Read more: the line is not whole, and short enough so far.
    More,
    // Nothing is left.
    Done,
}

// The input has ended: the bytes held are the last line, unless there is none.
fn cut_last(s: &[u8], long: bool) -> Cut
    ensures { result ≡ last_cut long s.now }
{
    if long || !s.is_empty() {
        Cut::Line(s.len())
    } else {
        Cut::Done
    }
}

pub fn cut_line(s: &[u8], long: bool, last: bool) -> Cut
    ensures { result ≡ cut_of long last s.now }
{
    let n = run_until(s, b'\n');
    if n < s.len() {
        Cut::Line(n)
    } else if last {
        cut_last(s, long)
    } else if MAX_LINE < s.len() {
        Cut::Over
    } else {
        Cut::More
    }
}

// The job of a line, by the lengths of its fields.
#[derive(Clone, Copy)]
pub enum JobCut {
    // `s`: a pack of so many bytes behind the letter and its TAB, and a number behind the next TAB.
    SelectAt(usize),
    // `c`: a pack behind the letter and its TAB.
    CheckAt,
    // `f`: a pattern of so many bytes behind the letter and its TAB, and a number behind the next TAB.
    FormatAt(usize),
    // no job
    Unknown,
}

// The letter and the fields behind it: n is the length of the first, two says that there is a second
// and no third, one that there is no second.
fn job_with(letter: u8, n: usize, one: bool, two: bool) -> JobCut
    ensures { result ≡ job_with letter n one two }
{
    match letter {
        b'c' if one => JobCut::CheckAt,
        b's' if two => JobCut::SelectAt(n),
        b'f' if two => JobCut::FormatAt(n),
        _ => JobCut::Unknown,
    }
}

// A second field, of two, and no third.
fn is_last(s: &[u8], n: usize) -> bool
    ensures { result ≡ last_field n s.now }
{
    n < s.len() && !s[n + 1..].contains(&b'\t')
}

// The job of a line, for any bytes.
pub fn read_job(line: &[u8]) -> JobCut
    ensures { job_at (drop 2 line.now) result ≡ job_of line.now }
{
    match line {
        [letter, b'\t', rest @ ..] => {
            let n = run_until(rest, b'\t');
            job_with(*letter, n, n == rest.len(), is_last(rest, n))
        }
        _ => JobCut::Unknown,
    }
}

// Moves the bytes from `from` up to `held` to the front of the buffer, and answers how many.
pub fn keep_rest(buffer: &mut [u8], from: usize, held: usize) -> usize
    ensures { Kept buffer.old from held buffer.new result }
{
    let end = held.min(buffer.len());
    let start = from.min(end);
    buffer.copy_within(start..end, 0);
    end - start
}

// Where the line behind one of n bytes begins: behind its LF, but not past the bytes held.
pub fn next_line(from: usize, n: usize, held: usize) -> usize
    ensures { result ≡ min (from + n + 1) held }
{
    from.saturating_add(n).saturating_add(1).min(held)
}

// How many bytes are held once some more are read, within the buffer.
pub fn held_after(kept: usize, got: usize, room: usize) -> usize
    ensures { result ≡ min (kept + got) room }
{
    kept.saturating_add(got).min(room)
}
