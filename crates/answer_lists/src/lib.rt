// A refusal's figures and a keyword's letters, each as a count and an array with zeros behind.
//
// Crate answer's specs/Table.antt gives a row's figures, specs/Words.antt a keyword's letters, and
// specs/Lists.antt the array that holds such a list; the functions here are those definitions. The
// entries are figures and word.
#![tactic(auto)]

ghost use Rattle.std.specs.Prelude.{◌≡◌, [], ◌∷◌};
ghost use Rattle.answer.specs.Table.{figures_of};
ghost use Rattle.answer.specs.Words.{spelling};
ghost use Rattle.answer.specs.Lists.{figure_list, letter_list};

use answer::{
    FigureList, Keyword, Letters, MAX_FIGURES, Pair, PrintRow, Refusal, RulesRow, Witness,
};

fn none() -> FigureList
    ensures { result ≡ figure_list [] }
{
    FigureList {
        count: 0,
        values: [0; MAX_FIGURES],
    }
}

fn one(a: usize) -> FigureList
    ensures { result ≡ figure_list (a ∷ []) }
{
    FigureList {
        count: 1,
        values: [a as u64, 0, 0, 0, 0, 0, 0],
    }
}

fn of_pair(p: Pair) -> FigureList
    ensures { result ≡ figure_list (p.first ∷ p.second ∷ []) }
{
    FigureList {
        count: 2,
        values: [u64::from(p.first), u64::from(p.second), 0, 0, 0, 0, 0],
    }
}

fn of_clash(p: Pair, x: Witness) -> FigureList
    ensures { result ≡ figure_list (p.first ∷ p.second ∷ x.e ∷ x.v.0 ∷ x.i ∷ x.f.0 ∷ []) }
{
    FigureList {
        count: 6,
        values: [
            u64::from(p.first),
            u64::from(p.second),
            u64::from(x.e),
            u64::from(x.v.0),
            x.i,
            x.f.0,
            0,
        ],
    }
}

// The figures that the row returns besides, in the table's order.
pub fn figures(r: Refusal) -> FigureList
    ensures { result ≡ figure_list (figures_of r) }
{
    match r {
        Refusal::Pack(_, at) => one(at.0),
        Refusal::Rules(RulesRow::TwoRulesMet(p)) => of_pair(p),
        Refusal::Rules(RulesRow::RulesClash(p, x)) => of_clash(p, x),
        Refusal::Print(PrintRow::AreaTooShort(n)) => one(n),
        Refusal::Number(_)
        | Refusal::PackTooLong
        | Refusal::Pattern(_)
        | Refusal::Symbols(_)
        | Refusal::Print(PrintRow::PrintedExponent) => none(),
    }
}

pub fn word(k: Keyword) -> Letters
    ensures { result ≡ letter_list (spelling k) }
{
    let (len, letters) = match k {
        Keyword::Zero => (4, b"zero\0"),
        Keyword::One => (3, b"one\0\0"),
        Keyword::Two => (3, b"two\0\0"),
        Keyword::Few => (3, b"few\0\0"),
        Keyword::Many => (4, b"many\0"),
        Keyword::Other => (5, b"other"),
    };
    Letters {
        len,
        letters: *letters,
    }
}
