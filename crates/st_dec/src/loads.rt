//! The load of a decimal field into the transit register, by which decimal multiply, multiply and
//! add, and divide begin; a program of the user completes these operations. base.rt calls
//! `load_transit`. docs/variable-fields.md has the rules.
//!
//! Proved: the result is `transit_set` of specs/DecimalResult.antt: codes of four bits in the
//! transit register, and the indicator DTR.
//!
//! Pinned, by this definition, docs/operations.md and vectors/decimal.txt: the result. Free: the
//! body.
ghost use Rattle.std.specs.Prelude.{◌≡◌};
ghost use Rattle.st_field.specs.Fields.{HasRoom};
ghost use Rattle.st_dec.specs.DecimalOperand.{IsDecimalShape};
ghost use Rattle.st_dec.specs.DecimalResult.{transit_set};

use crate::digits::codes;
use crate::operand::field_value;
use st_bits::indicator;
use st_bits::indicators::DECIMAL_TRANSIT;
use st_field::fields::{Field, Shape};
use st_field::indicators::flag_indicators;
use st_field::operand::operand;
use st_field::{Acc, Done, load_transit as load_in_transit};

/// The result of a decimal multiply or divide: the codes are loaded into the transit register.
pub fn load_transit(acc: &Acc, f: &Field, shape: &Shape) -> Done
    requires shape { IsDecimalShape shape.now }
    requires room { HasRoom f.now shape.now }
    ensures { result ≡ transit_set acc.now f.now shape.now }
{
    let operand = operand(f, shape, u128::from(field_value(f, shape)));
    let on = flag_indicators(f.flags) + indicator(DECIMAL_TRANSIT);
    load_in_transit(acc, operand, codes(f, shape), on)
}
