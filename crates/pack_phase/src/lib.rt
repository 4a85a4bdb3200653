// What may follow in a pack: the phases of reading it, and the phase behind a token.
//
// specs/Next.antt has the automaton; proofs/Phases.antt shows that it goes with the grammar's states.
#![tactic(auto, using(pack_token::proofs::Spellings::spellings))]

ghost use Rattle.std.specs.Prelude.{◌≡◌};
ghost use Rattle.pack_grammar.specs.Grammar.{is_word, is_number, is_operand};
ghost use Rattle.pack_phase.specs.Next.{after_sign, after_relation, next_phase};

// What a pack has next: a keyword; `:`; nothing more, behind `other:`; an operand; `%` or a sign; a
// modulus; a sign; a value; `..` or what follows a relation; the upper end of a range; what follows a
// relation. Dead: nothing makes it well-formed.
#[derive(Clone, Copy, PartialEq, Eq)]
pub enum Phase {
    Name,
    Colon,
    Nothing,
    Operand,
    ModulusOrSign,
    Modulus,
    Sign,
    Value,
    DotsOrMore,
    Upper,
    More,
    Dead,
}

fn is_word(t: &[u8]) -> bool
    ensures { result ≡ is_word t.now }
{
    matches!(t, [b'a'..=b'z', ..])
}

fn is_number(t: &[u8]) -> bool
    ensures { result ≡ is_number t.now }
{
    matches!(t, [b'0'..=b'9', ..])
}

fn is_operand(t: &[u8]) -> bool
    ensures { result ≡ is_operand t.now }
{
    matches!(t, b"n" | b"i" | b"f" | b"t" | b"v" | b"w" | b"c" | b"e")
}

fn after_sign(t: &[u8]) -> Phase
    ensures { result ≡ after_sign t.now }
{
    match t {
        b"=" | b"!=" => Phase::Value,
        _ => Phase::Dead,
    }
}

fn after_relation(t: &[u8]) -> Phase
    ensures { result ≡ after_relation t.now }
{
    match t {
        b"," => Phase::Value,
        b"and" | b"or" => Phase::Operand,
        b";" => Phase::Name,
        _ => Phase::Dead,
    }
}

// The phase behind the token t; `other`: the token before it was `other`.
pub fn next_phase(p: Phase, other: bool, t: &[u8]) -> Phase
    ensures { result ≡ next_phase p other t.now }
{
    match p {
        Phase::Name if is_word(t) => Phase::Colon,
        Phase::Colon if matches!(t, b":") && other => Phase::Nothing,
        Phase::Colon if matches!(t, b":") => Phase::Operand,
        Phase::Nothing if matches!(t, b";") => Phase::Name,
        Phase::Operand if is_operand(t) => Phase::ModulusOrSign,
        Phase::ModulusOrSign if matches!(t, b"%") => Phase::Modulus,
        Phase::ModulusOrSign | Phase::Sign => after_sign(t),
        Phase::Modulus if is_number(t) => Phase::Sign,
        Phase::Value if is_number(t) => Phase::DotsOrMore,
        Phase::DotsOrMore if matches!(t, b"..") => Phase::Upper,
        Phase::DotsOrMore | Phase::More => after_relation(t),
        Phase::Upper if is_number(t) => Phase::More,
        _ => Phase::Dead,
    }
}
