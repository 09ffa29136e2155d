//! Expressions that are kept as text: 64 bytes in place of 32 terms. The statements of a job
//! (`st_strap`) keep their fields in this form, and `st_asm` takes the values of fields by `value`.
//! docs/strap.md has the rules.
//!
//! Proved: contracts see an `ExprText` as the list of its terms, as if they were kept. `read`
//! accepts the texts that `read_expr` accepts, with equal faults (`expr_of` of
//! specs/Expression.antt); `terms` is that list, `value` its sum (`sum_of_terms` of
//! specs/Value.antt).
//!
//! Pinned, by these definitions, docs/strap.md, docs/CLAIMS.md and vectors/texts.txt: the results.
//! Free: that the terms are parsed again at each use; the private layout; the loop of `sum_of`, if
//! proofs/texts follows.

ghost use Rattle.std.specs.Prelude.{◌≡◌, ◌+◌, ◌≤◌, ◌*◌, ◌^◌, ℕ, ℤ, pos, ◌-ℤ◌, ◌≤ℤ◌, Bool, List, ◌∷◌, length, take, IfSome};
ghost use Rattle.arrayvec.specs.ArrayVec.{ArrayVec as ListOf};
ghost use Rattle.st_expr.specs.Expression as spec;
ghost use Rattle.st_expr.specs.Value.{plus, sum_of_terms as sum_by};
ghost use Rattle.st_expr.specs.declared.terms.Term.{Term as TermOf};

use crate::expressions::{Expr, behind_sign, check_parts, first_part, terms_in};
use crate::terms::{AtomReading, Term, read_atom};
use crate::values::{Symbols, term_value};
use st_card::Fault;
use std::marker::Model;

/// An expression that is kept as its text, which takes less memory than its terms. The terms are
/// parsed again at each use.
#[derive(Drop, Debug)]
pub struct ExprText {
    // The length of the text in bytes.
    length: u8,
    // The text, padded to 63 bytes.
    bytes: [u8; 63],
}

impl Model for ExprText {
    // Contracts see the list of its terms.
    ghost Value = { ListOf TermOf };

    ghost view = { λ e. record { items = spec.terms_of (spec.parts (take e.length e.bytes)) } };

    // The text is no longer than the array.
    ghost invariant = { λ e. e.length ≤ 63 };
}

impl ExprText {
    /// Parses a text of at most 63 bytes as an expression, by the rules of `read_expr`
    /// (`expressions.rt`).
    pub fn read(text: &[u8]) -> Result<ExprText, Fault>
        requires { length text.now ≤ 63 }
        ensures { result ≡ spec.expr_of text.now }
    {
        let (minus, rest) = behind_sign(text);
        check_parts(minus, rest)?;
        Ok(ExprText::new(text))
    }

    // The expression of a text whose parts have been checked.
    fn new(text: &[u8]) -> ExprText
        requires { length text.now ≤ 63 }
        ensures { result ≡ record { items = spec.terms_of (spec.parts text.now) } }
    {
        let mut bytes = [0; 63];
        bytes[..text.len()].copy_from_slice(text);
        ExprText {
            length: text.len() as u8,
            bytes,
        }
    }

    // The text of the expression.
    fn text(&self) -> &[u8]
        ensures terms { record { items = spec.terms_of (spec.parts result.now) } ≡ self.now }
        ensures short { length result.now ≤ 63 }
    {
        &self.bytes[..usize::from(self.length)]
    }

    /// The terms of the expression.
    pub fn terms(&self) -> Expr
        ensures { result ≡ self.now }
    {
        let (minus, text) = behind_sign(self.text());
        terms_in(minus, text)
    }

    /// The expression's value, as `value_of` computes it from its terms; `None` if a name is not
    /// defined.
    pub fn value(&self, symbols: &Symbols) -> Option<i64>
        ensures { result ≡ sum_by symbols.now self.now.items }
    {
        let (minus, text) = behind_sign(self.text());
        sum_of(minus, text, symbols)
    }
}

// The value of the terms in the text after a sign; `minus` says whether the sign is a minus.
fn sum_of(minus: bool, text: &[u8], symbols: &Symbols) -> Option<i64>
    requires { length text.now ≤ 63 }
    ensures value { result ≡ sum_by symbols.now (spec.terms_of (spec.parts_after minus text.now)) }
    ensures low { IfSome result (λ n. (pos 0 -ℤ pos ((length text.now + 1) * 2 ^ 32)) ≤ℤ n) }
    ensures high { IfSome result (λ n. n ≤ℤ pos ((length text.now + 1) * 2 ^ 32)) }
{
    match first_part(text) {
        (word, None) => part_value(minus, word, symbols),
        (word, Some((next, rest))) => {
            let value = part_value(minus, word, symbols)?;
            let sum = sum_of(next, rest, symbols)?;
            Some(value + sum)
        }
    }
}

// The value of the term in one part, with its sign; 0 for a part that is not a term. Put in front
// of any parts, this part adds it to their sum.
fn part_value(minus: bool, word: &[u8], symbols: &Symbols) -> Option<i64>
    ensures value { (parts : List (Bool × List ℕ)) → plus result
        (sum_by symbols.now (spec.terms_of parts))
        ≡ sum_by symbols.now (spec.terms_of ((minus, word.now) ∷ parts)) }
    ensures low { IfSome result (λ n. (pos 0 -ℤ pos (2 ^ 32)) ≤ℤ n) }
    ensures high { IfSome result (λ n. n ≤ℤ pos (2 ^ 32)) }
{
    match read_atom(word) {
        AtomReading::Good(atom) => term_value(Term { minus, atom }, symbols),
        AtomReading::Bad | AtomReading::Large => Some(0),
    }
}
