// The rows' numbers in document 01's table of refusals.
//
// Crate answer has the rows as types, and its specs/Table.antt gives each row's number; the functions
// here are those definitions, one for the rows of each input. The entry is number.
#![tactic(auto)]

ghost use Rattle.std.specs.Prelude.{◌≡◌};
ghost use Rattle.answer.specs.Table.{number_row, pack_row, rules_row, pattern_row, symbol_row, print_row, number_of};

use answer::{NumberRow, PackRow, PatternRow, PrintRow, Refusal, RulesRow, SymbolRow};

fn number_row(r: NumberRow) -> u8
    ensures { result ≡ number_row r }
{
    match r {
        NumberRow::NumberTooLong => 10,
        NumberRow::NotANumber => 11,
        NumberRow::ExponentTooLarge => 12,
        NumberRow::ExponentAfterZero => 13,
        NumberRow::IntegerTooLong => 14,
        NumberRow::FractionTooLong => 15,
    }
}

fn pack_row(r: PackRow) -> u8
    ensures { result ≡ pack_row r }
{
    match r {
        PackRow::NotAPack => 21,
        PackRow::ValueTooLarge => 22,
        PackRow::UnlistedModulus => 23,
        PackRow::RangeReversed => 24,
        PackRow::BadKeyword => 25,
        PackRow::TooMany => 26,
    }
}

fn rules_row(r: RulesRow) -> u8
    ensures { result ≡ rules_row r }
{
    match r {
        RulesRow::TwoRulesMet(_) | RulesRow::RulesClash(_, _) => 27,
    }
}

fn pattern_row(r: PatternRow) -> u8
    ensures { result ≡ pattern_row r }
{
    match r {
        PatternRow::PatternTooLong => 30,
        PatternRow::PatternNotUtf8 => 31,
        PatternRow::ReservedByte => 32,
        PatternRow::NotAPattern => 33,
        PatternRow::TooManyPlaces => 34,
        PatternRow::StepTooLarge => 35,
        PatternRow::PercentMismatch => 36,
    }
}

fn symbol_row(r: SymbolRow) -> u8
    ensures { result ≡ symbol_row r }
{
    match r {
        SymbolRow::NotASymbolRecord => 40,
        SymbolRow::BadSymbolBody => 41,
    }
}

fn print_row(r: PrintRow) -> u8
    ensures { result ≡ print_row r }
{
    match r {
        PrintRow::PrintedExponent => 50,
        PrintRow::AreaTooShort(_) => 51,
    }
}

// The row's number in document 01's table.
pub fn number(r: Refusal) -> u8
    ensures { result ≡ number_of r }
{
    match r {
        Refusal::Number(row) => number_row(row),
        Refusal::PackTooLong => 20,
        Refusal::Pack(row, _) => pack_row(row),
        Refusal::Rules(row) => rules_row(row),
        Refusal::Pattern(row) => pattern_row(row),
        Refusal::Symbols(row) => symbol_row(row),
        Refusal::Print(row) => print_row(row),
    }
}
