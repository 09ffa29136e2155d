//! Loads of the accumulator, of the factor register and of the transit register. operations.rt and
//! the bases (`st_bin`, `st_dec`) call these functions. docs/variable-fields.md has the rules. `on`
//! holds indicators as bits, below 2^63, so that result indicators can be added.
//!
//! Proved: the results are `loaded`, `transit_loaded` and `factor_loaded` of specs/Results.antt.
//! Pinned, by these definitions, docs/operations.md, vectors/binary.txt and vectors/decimal.txt:
//! the results. Free: the bodies.
ghost use Rattle.std.specs.Prelude.{◌≡◌, ◌<◌, ◌^◌};
ghost use Rattle.st_field.specs.Results.{loaded, transit_loaded, factor_loaded};

use crate::accumulator::Acc;
use crate::fields::{Field, sign_byte};
use crate::indicators::by_number;
use crate::operand::Aligned;
use crate::outcome::{Done, done_with, in_accumulator};
use crate::signed::Signed;

/// Load: the aligned operand without zone and flags.
pub fn load(operand: Aligned) -> Done
    requires { operand.on < 2 ^ 63 }
    ensures { result ≡ loaded 0 0 operand }
{
    let acc = Acc {
        mag: operand.bits,
        sb: sign_byte(0, operand.number.negative, 0),
    };
    in_accumulator(acc, operand.number.mag, operand.on)
}

/// Load with flags: the aligned operand with the zone and flags of its field.
pub(crate) fn load_with_flags(f: &Field, operand: Aligned) -> Done
    requires zone { f.now.zone < 16 }
    requires flags { f.now.flags < 8 }
    requires few { operand.on < 2 ^ 63 }
    ensures { result ≡ loaded f.now.zone f.now.flags operand }
{
    let acc = Acc {
        mag: operand.bits,
        sb: sign_byte(f.zone, operand.number.negative, f.flags),
    };
    in_accumulator(acc, operand.number.mag, operand.on)
}

/// Load transit and set: `bits`, the contents of the field, are loaded into the transit register.
/// The operand is the result number; the indicators `on` are also turned on.
pub fn load_transit(acc: &Acc, operand: Signed, bits: u64, on: u64) -> Done
    requires { on < 2 ^ 63 }
    ensures { result ≡ transit_loaded acc.now operand bits on }
{
    Done {
        tr: Some(bits),
        ..done_with(acc, by_number(false, operand, on))
    }
}

/// Load factor: `bits`, the contents of the field, are loaded into the factor register. The operand
/// is the result number; the indicators `on` are also turned on.
pub(crate) fn load_factor(acc: &Acc, operand: Signed, bits: u64, on: u64) -> Done
    requires { on < 2 ^ 63 }
    ensures { result ≡ factor_loaded acc.now operand bits on }
{
    Done {
        ft: Some(bits),
        ..done_with(acc, by_number(false, operand, on))
    }
}
