//! The bits that a single statement assembles to, without a job around it. The disassembler
//! (`st_dis`, spelling.rt) decides by `emitted_alone` whether the statement of an instruction gives
//! the instruction's bits again. docs/disassembly.md has that rule.
//!
//! Proved: the result is `emitted_alone` of specs/Alone.antt, made of the definitions of the three
//! passes; `None` is a fault of any pass. That at most 64 bits come out follows from `fits` of
//! `placing_of` (places.rt) and the clause `below` of `bits_of` (emitting.rt); no clause here says
//! it.
//!
//! Pinned: `emitted_alone`, by `st_dis` and vectors/decks.txt; that the statement is checked at
//! FIRST_LOCATION of naming.rt, by specs/Alone.antt (the location counts only in the check of
//! storage). Free: the split into functions, if proofs/alone follows.

ghost use Rattle.std.specs.Prelude.{◌≡◌, ◌≤◌, length};
ghost use Rattle.st_asm.specs.Alone as spec;
ghost use Rattle.st_strap.specs.WellFormed.{IsWellFormed};

use crate::checks::value_fault;
use crate::emitting::bits_of;
use crate::naming::FIRST_LOCATION;
use crate::places::placing_of;
use crate::symbols::knows_all;
use crate::values::values_of;
use st_expr::Symbols;
use st_strap::{CompactStatement, read_compact};

/// The bits that a statement assembles to: at most 64, as a number.
#[derive(Clone, Copy, Debug, PartialEq, Eq)]
pub struct EmittedBits {
    /// The number of bits.
    pub length: u8,
    /// The bits, as a number below 2^length.
    pub bits: u64,
}

/// Assembles the statement of a card without a name, whose symbols are defined by `symbols`. The
/// text is columns 10 to 72, at most 63 bytes. `None` if the statement has a fault of any pass.
pub fn emitted_alone(symbols: &Symbols, text: &[u8]) -> Option<EmittedBits>
    requires { length text.now ≤ 63 }
    ensures { result ≡ spec.emitted_alone symbols.now text.now }
{
    match read_compact(b"", text) {
        Ok(statement) => emitted_by(symbols, &statement),
        Err(_) => None,
    }
}

// Assembles a statement whose names are all defined by `symbols`.
fn emitted_by(symbols: &Symbols, s: &CompactStatement) -> Option<EmittedBits>
    requires { IsWellFormed s.now }
    ensures { result ≡ spec.emitted_by symbols.now s.now }
{
    if !knows_all(symbols, s) {
        return None;
    }
    let v = values_of(symbols, s);
    let placing = placing_of(s);
    match value_fault(s, placing, v, FIRST_LOCATION) {
        Some(_) => None,
        None => Some(EmittedBits {
            length: placing.length() as u8,
            bits: bits_of(s, v),
        }),
    }
}
