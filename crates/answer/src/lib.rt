// Document 01's table of refusals as data, and the plural keywords. There are types here and no function.
//
// Refusal has the rows by the input that they judge, with the figures that they return, each of its
// own type. specs/Table.antt gives a row's number and figures; crate answer_table has the numbers as a
// function, crate answer_lists the figures and the keywords' letters. A new row is a line in the enum
// of its input, in its definition and in its function.
#![tactic(auto)]

use decimal::{DigitValue, Places};

// A place in a text: the index of a byte, or the text's length.
#[derive(Clone, Copy)]
pub struct Place(pub usize);

// Two rules of a pack, counted from 1.
#[derive(Clone, Copy, PartialEq, Eq)]
pub struct Pair {
    pub first: u8,
    pub second: u8,
}

// An admitted number, as the check names it.
#[derive(Clone, Copy, PartialEq, Eq, PartialOrd, Ord)]
pub struct Witness {
    pub e: u8,
    pub v: Places,
    pub i: u64,
    pub f: DigitValue,
}

// The rows of a number.
#[derive(Clone, Copy)]
pub enum NumberRow {
    NumberTooLong,
    NotANumber,
    ExponentTooLarge,
    ExponentAfterZero,
    IntegerTooLong,
    FractionTooLong,
}

// The rows of a pack that return a place.
#[derive(Clone, Copy)]
pub enum PackRow {
    NotAPack,
    ValueTooLarge,
    UnlistedModulus,
    RangeReversed,
    BadKeyword,
    TooMany,
}

// The rows of the rules of a pack that is read: two that a number meets, two that the check finds met by
// one number.
#[derive(Clone, Copy)]
pub enum RulesRow {
    TwoRulesMet(Pair),
    RulesClash(Pair, Witness),
}

// The rows of a pattern.
#[derive(Clone, Copy)]
pub enum PatternRow {
    PatternTooLong,
    PatternNotUtf8,
    ReservedByte,
    NotAPattern,
    TooManyPlaces,
    StepTooLarge,
    PercentMismatch,
}

// The rows of a symbol record.
#[derive(Clone, Copy)]
pub enum SymbolRow {
    NotASymbolRecord,
    BadSymbolBody,
}

// The rows of printing what has been read.
#[derive(Clone, Copy)]
pub enum PrintRow {
    PrintedExponent,
    AreaTooShort(usize),
}

// A row of the table with what it returns besides, by what it judges.
#[derive(Clone, Copy)]
pub enum Refusal {
    Number(NumberRow),
    PackTooLong,
    Pack(PackRow, Place),
    Rules(RulesRow),
    Pattern(PatternRow),
    Symbols(SymbolRow),
    Print(PrintRow),
}

// No row has more figures.
pub const MAX_FIGURES: usize = 7;

// The figures of a refusal: the first `count` of `values`, and zeros behind them. There is no heap here:
// an array and how much of it counts.
#[derive(Clone, Copy)]
pub struct FigureList {
    pub count: usize,
    pub values: [u64; MAX_FIGURES],
}

#[derive(Clone, Copy)]
pub enum Keyword {
    Zero,
    One,
    Two,
    Few,
    Many,
    Other,
}

// A keyword's letters: the first `len` of `letters`, and zeros behind them, for the same reason.
#[derive(Clone, Copy)]
pub struct Letters {
    pub len: usize,
    pub letters: [u8; 5],
}
