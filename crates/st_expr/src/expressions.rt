//! Parses an expression: a sum of numbers and names, as most fields of a card are, for addresses,
//! values and numbers of bits. texts.rt calls the `pub(crate)` functions, by which `st_strap` reads
//! fields. No program calls `read_expr`, which docs/CLAIMS.md offers. A text of 63 bytes has at
//! most 32 terms, the capacity of `Expr`. docs/strap.md has the rules.
//!
//! Proved: `read_expr` is `expr_of` of specs/Expression.antt, the terms or the fault.
//!
//! Pinned, by this definition, docs/strap.md, docs/CLAIMS.md, vectors/texts.txt and
//! vectors/faults.txt: terms and faults; `Expr` and `read_expr`. Free: the bodies, and the split
//! into a pass for faults and a pass for terms, if proofs/expressions follows.

ghost use Rattle.std.specs.Prelude.{◌≡◌, ◌+◌, ◌≤◌, Bool, [], ◌∷◌, length, Ok, Err, IfOk, IfErr, MatchOption};
ghost use Rattle.st_expr.specs.Expression as spec;

use crate::terms::{AtomReading, Term, read_atom};
use arrayvec::ArrayVec;
use st_card::Fault;

/// An expression: the sum of its terms, each added or subtracted.
pub type Expr = ArrayVec<Term, 32>;

/// Parses a text of at most 63 bytes as an expression.
///
/// An expression is terms joined by `+` and `-`, with an optional sign before the first. A term is
/// a name, a system symbol, or a number `w` or `w.b`, which is the bit address 64w + b. The error
/// is `BadExpression` if the text is not an expression, and `NumberTooLarge` if it is one but has a
/// w above 262,143 or a b above 63.
pub fn read_expr(text: &[u8]) -> Result<Expr, Fault>
    requires { length text.now ≤ 63 }
    ensures { result ≡ spec.expr_of text.now }
{
    let (minus, rest) = behind_sign(text);
    check_parts(minus, rest)?;
    Ok(terms_in(minus, rest))
}

// Whether a text begins with a minus, and the text after its first sign, or the whole text if it
// does not begin with a sign.
pub(crate) fn behind_sign(text: &[u8]) -> (bool, &[u8])
    ensures parts { spec.parts_after result.0 result.1.now ≡ spec.parts text.now }
    ensures shorter { length result.1.now ≤ length text.now }
{
    match text {
        [b'+', rest @ ..] => (false, rest),
        [b'-', rest @ ..] => (true, rest),
        _ => (false, text),
    }
}

// Checks the parts of an expression, given the text after its first sign; returns the expression's
// fault if it has one.
pub(crate) fn check_parts(minus: bool, text: &[u8]) -> Result<(), Fault>
    ensures ok { IfOk result (λ _. spec.expr_in (spec.parts_after minus text.now)
        ≡ Ok (record { items = spec.terms_of (spec.parts_after minus text.now) })) }
    ensures err { IfErr result (λ fault. spec.expr_in (spec.parts_after minus text.now)
        ≡ Err fault) }
{
    let mut large = false;
    let mut left = Some((minus, text));
    // Proofs name the loops by their labels.
    'parts: while let Some((_, text)) = left {
        let (word, behind) = first_part(text);
        match read_atom(word) {
            AtomReading::Bad => return Err(Fault::BadExpression),
            AtomReading::Large => large = true,
            AtomReading::Good(_) => {}
        }
        left = behind;
    }
    if large {
        Err(Fault::NumberTooLarge)
    } else {
        Ok(())
    }
}

// The terms of the text after the first sign of an expression.
pub(crate) fn terms_in(minus: bool, text: &[u8]) -> Expr
    requires { length text.now ≤ 63 }
    ensures { result ≡ record { items = spec.terms_of (spec.parts_after minus text.now) } }
{
    let mut terms = Expr::new();
    let mut left = Some((minus, text));
    'parts: while let Some((minus, text)) = left {
        let (word, behind) = first_part(text);
        if let AtomReading::Good(atom) = read_atom(word) {
            terms.push(Term { minus, atom });
        }
        left = behind;
    }
    terms
}

// The first part of a text that is cut at its signs. If a sign follows the part, also whether the
// sign is a minus, and the text after it.
pub(crate) fn first_part(text: &[u8]) -> (&[u8], Option<(bool, &[u8])>)
    ensures parts { MatchOption result.1
        ((m : Bool) → spec.parts_after m text.now ≡ (m, result.0.now) ∷ [])
        (λ p. (m : Bool) → spec.parts_after m text.now
        ≡ (m, result.0.now) ∷ spec.parts_after p.0 p.1.now) }
    ensures lengths { MatchOption result.1 (length result.0.now ≡ length text.now)
        (λ p. length result.0.now + 1 + length p.1.now ≡ length text.now) }
{
    let mut front = 0;
    let mut rest = text;
    'bytes: while let [byte, after @ ..] = rest {
        if *byte == b'+' {
            return (text.split_at(front).0, Some((false, after)));
        }
        if *byte == b'-' {
            return (text.split_at(front).0, Some((true, after)));
        }
        front += 1;
        rest = after;
    }
    (text, None)
}
