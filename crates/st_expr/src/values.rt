//! The symbol table of a job, and the values of expressions under it, in bits: a symbol is a bit
//! address. The assembler (`st_asm`) defines symbols in its name pass and takes values of fields by
//! `ExprText` (texts.rt), which calls `term_value`; no program calls `value_of`, which
//! docs/CLAIMS.md offers. docs/strap.md has the rules.
//!
//! Proved: values are `sum_of_terms` of specs/Value.antt, and a definition of a symbol has the
//! effect `Defines` there. Contracts see the table as a list of names with values, in the order of
//! definition. Sums of at most 32 terms below 2^32 cannot overflow (`low`, `high`).
//!
//! Pinned, by these definitions, docs/strap.md, docs/CLAIMS.md and vectors/faults.txt: the values,
//! and that the first definition of a symbol counts. Free: the map in the table; the bodies, if
//! proofs/values follows `define_in` and `sum_of`.

ghost use Rattle.std.specs.Prelude.{◌≡◌, ◌≤◌, ◌*◌, ◌^◌, ℤ, pos, ◌-ℤ◌, ◌≤ℤ◌, [], length, None, IfOk, OnErr, IfSome};
ghost use Rattle.st_text.specs.Tables.{row_of};
ghost use Rattle.st_expr.specs.Value as spec;

use crate::expressions::Expr;
use crate::terms::{Atom, Term};
use indexmap::IndexMap;
use st_bits::NoMemory;
use std::alloc::Global;
use std::marker::Model;

/// A symbol table: names with their values, which are bit addresses, in the order of definition.
#[derive(Drop)]
pub struct Symbols {
    // Names, padded with blanks, with bit addresses; the map keeps the order of insertion.
    values: IndexMap<[u8; 8], u32>,
}

impl Model for Symbols {
    ghost use Rattle.std.specs.Prelude.{List, ℕ};

    // Contracts see names with their values, the oldest first.
    ghost Value = { List (List ℕ × ℕ) };

    ghost view = { λ s. s.values.entries };
}

impl Symbols {
    /// A symbol table without symbols.
    pub fn new(alloc: Global) -> Symbols
        ensures { result ≡ [] }
    {
        Symbols {
            values: IndexMap::new(alloc),
        }
    }

    /// Defines a name, padded with blanks to eight bytes, and returns whether it is a new one.
    ///
    /// If the name is already defined, or if memory runs out, the table is unchanged.
    pub fn define(&mut self, name: [u8; 8], value: u32) -> Result<bool, NoMemory>
        ensures ok { IfOk result (spec.Defines self.old self.new name value) }
        ensures fresh { OnErr result (row_of name self.old ≡ None) }
        ensures unchanged { OnErr result (self.new ≡ self.old) }
    {
        define_in(&mut self.values, name, value)
    }

    /// The value of a name, a bit address; `None` if it is not defined.
    pub fn get(&self, name: [u8; 8]) -> Option<u32>
        ensures { result ≡ row_of name self.now }
    {
        self.values.get(&name).copied()
    }
}

// Defines a name in a map from names to values.
fn define_in(
    values: &mut IndexMap<[u8; 8], u32>,
    name: [u8; 8],
    value: u32,
) -> Result<bool, NoMemory>
    ensures ok { IfOk result (spec.Defines values.old.entries values.new.entries name value) }
    ensures fresh { OnErr result (row_of name values.old.entries ≡ None) }
    ensures unchanged { OnErr result (values.new.entries ≡ values.old.entries) }
{
    if values.contains_key(&name) {
        return Ok(false);
    }
    match values.insert(name, value) {
        Ok(_) => Ok(true),
        Err(_) => Err(NoMemory),
    }
}

/// The value of an expression, in bits: the sum of its terms, where a name has the value of its
/// symbol.
///
/// `None` if a name is not defined.
pub fn value_of(e: &Expr, s: &Symbols) -> Option<i64>
    ensures { result ≡ spec.sum_of_terms s.now e.now.items }
{
    sum_of(e.as_slice(), s)
}

// The sum of the terms.
fn sum_of(terms: &[Term], symbols: &Symbols) -> Option<i64>
    requires { length terms.now ≤ 32 }
    ensures value { result ≡ spec.sum_of_terms symbols.now terms.now }
    ensures low { IfSome result (λ n. (pos 0 -ℤ pos (length terms.now * 2 ^ 32)) ≤ℤ n) }
    ensures high { IfSome result (λ n. n ≤ℤ pos (length terms.now * 2 ^ 32)) }
{
    match terms {
        [] => Some(0),
        [term, rest @ ..] => {
            let value = term_value(*term, symbols)?;
            let sum = sum_of(rest, symbols)?;
            Some(value + sum)
        }
    }
}

// The value of a term, with its sign.
pub(crate) fn term_value(term: Term, symbols: &Symbols) -> Option<i64>
    ensures value { result ≡ spec.term_value symbols.now term }
    ensures low { IfSome result (λ n. (pos 0 -ℤ pos (2 ^ 32)) ≤ℤ n) }
    ensures high { IfSome result (λ n. n ≤ℤ pos (2 ^ 32)) }
{
    let value = i64::from(atom_value(term.atom, symbols)?);
    Some(if term.minus { -value } else { value })
}

// The number, or the value of the name.
fn atom_value(atom: Atom, symbols: &Symbols) -> Option<u32>
    ensures { result ≡ spec.atom_value symbols.now atom }
{
    match atom {
        Atom::Number(number) => Some(number),
        Atom::Name(name) => symbols.get(name),
    }
}
