//! The locations of statements, and how statements change the location counter, a bit address below
//! 2^24. docs/strap.md has the rules. naming.rt assigns locations by it; checks.rt, valuing.rt and
//! alone.rt take the number of bits.
//!
//! Proved: each call returns exactly a definition of specs/Places.antt (`placing_of`, `length_in`,
//! `place_in`, `behind_in`, `needs_earlier`). A location that overflows is no fault here, but wraps
//! modulo 2^24; checks.rt refuses bits outside of storage.
//!
//! Pinned: the units 1, 32 and 64 of each kind of statement, and the wrapping, by
//! specs/Places.antt, docs/strap.md and vectors/faults.txt. A new kind of statement needs a case of
//! `placing_of` here and in specs/Places.antt. Free: the bodies.

ghost use Rattle.std.specs.Prelude.{◌≡◌, ◌<◌, ◌≤◌, ◌^◌, IfSome};
ghost use Rattle.st_asm.specs.Places as spec;
ghost use Rattle.st_asm.specs.Places.{IsPlacing};
ghost use Rattle.st_strap.specs.WellFormed.{IsWellFormed};

use crate::values::wrapped;
use st_strap::{CompactStatement, Statement};

// The number of bits of a half-word.
const HALF: u32 = 32;

// The number of bits of a word.
const WORD: u32 = 64;

// The effect of a statement on the location counter.
#[derive(Clone, Copy)]
pub(crate) enum Placing {
    // The statement assembles to `bits` bits, from the next multiple of `unit` on.
    Emits { unit: u32, bits: u32 },
    // `DR`: the statement goes to the next word, and skips as many bits as its field says.
    Passes,
    // `SLC`: the location counter is set to the field's value.
    Sets,
    // `SYN`: the card's name is defined as the field's value.
    Names,
    // The statement is END.
    Ends,
}

// Classifies a statement by its effect; a unit and a number of bits are at most 64.
pub(crate) fn placing_of(statement: &CompactStatement) -> Placing
    requires { IsWellFormed statement.now }
    ensures placing { result ≡ spec.placing_of statement.now }
    ensures fits { IsPlacing result }
{
    match statement {
        Statement::Half { .. }
        | Statement::Sum { .. }
        | Statement::Refill { .. }
        | Statement::Branch { .. }
        | Statement::Floating { .. } => Placing::Emits {
            unit: HALF,
            bits: HALF,
        },
        Statement::Vfl { .. }
        | Statement::Connect { .. }
        | Statement::Move { .. }
        | Statement::BitBranch { .. }
        | Statement::IndBranch { .. }
        | Statement::StoreCounter { .. }
        | Statement::Transfer { .. } => Placing::Emits {
            unit: HALF,
            bits: WORD,
        },
        Statement::Data { form, .. } => Placing::Emits {
            unit: 1,
            bits: u32::from(form.length),
        },
        Statement::IndexWord { .. } => Placing::Emits {
            unit: WORD,
            bits: WORD,
        },
        Statement::Synonym { .. } => Placing::Names,
        Statement::SetLocation { .. } => Placing::Sets,
        Statement::Reserve { .. } => Placing::Passes,
        Statement::End { .. } => Placing::Ends,
    }
}

impl Placing {
    // The number of bits that the statement assembles to.
    pub(crate) fn length(self) -> u32
        requires { IsPlacing self }
        ensures length { result ≡ spec.length_in self }
        ensures few { result ≤ 64 }
    {
        match self {
            Placing::Emits { bits, .. } => bits,
            _ => 0,
        }
    }

    // The location of the statement, given the location counter and the value of its field; `None`
    // for END, which has no location.
    pub(crate) fn place(self, location: u32, value: i64) -> Option<u32>
        requires placing { IsPlacing self }
        requires location { location < 2 ^ 24 }
        ensures place { result ≡ spec.place_in self location value }
        ensures below { IfSome result (λ place. place < 2 ^ 24) }
    {
        match self {
            Placing::Emits { unit, .. } => Some(aligned(unit, location)),
            Placing::Passes => Some(aligned(WORD, location)),
            Placing::Sets | Placing::Names => Some(wrapped(value)),
            Placing::Ends => None,
        }
    }

    // The location counter after the statement; `value` is the value of its field.
    pub(crate) fn behind(self, location: u32, value: i64) -> u32
        requires placing { IsPlacing self }
        requires location { location < 2 ^ 24 }
        ensures location { result ≡ spec.behind_in self location value }
        ensures below { result < 2 ^ 24 }
    {
        match self {
            Placing::Emits { unit, bits } => (aligned(unit, location) + bits) % (1 << 24),
            Placing::Passes => (aligned(WORD, location) + wrapped(value)) % (1 << 24),
            Placing::Sets => wrapped(value),
            Placing::Names | Placing::Ends => location,
        }
    }

    // Whether the names in the field must be defined by earlier cards.
    pub(crate) fn needs_earlier(self) -> bool
        ensures { result ≡ spec.needs_earlier self }
    {
        matches!(self, Placing::Passes | Placing::Sets | Placing::Names)
    }
}

// The next multiple of a unit at or after a location, modulo 2^24.
fn aligned(unit: u32, location: u32) -> u32
    requires some { 1 ≤ unit }
    requires small { unit ≤ 64 }
    requires location { location < 2 ^ 24 }
    ensures place { result ≡ spec.next_multiple unit location }
    ensures below { result < 2 ^ 24 }
{
    (location + (unit - 1)) / unit * unit % (1 << 24)
}
