//! The statement of each operation, parsed from its form and its fields: one function for each.
//! docs/strap.md has the fields of each operation. reading.rt calls these functions; no other
//! module does.
//!
//! Proved: each function returns exactly the case of `with_fields` in specs/Saying.antt for its
//! operation: its statement or its first fault. Not proved: that `inline(never)` at `parse_sum`
//! saves time, which docs/COSTS.md counts.
//!
//! Pinned, by `with_fields`, docs/strap.md and vectors/mnemonics.txt: which fields an operation
//! has, that is which function of shapes.rt is called. A new operation needs a function here and a
//! case of `with_fields`, in reading.rt and in specs/Saying.antt. Free: the attribute and the
//! bodies.

ghost use Rattle.std.specs.Prelude.{◌≡◌};
ghost use Rattle.st_mnemonic.specs.Fields.{texts};
ghost use Rattle.st_strap.specs.Saying as spec;
ghost use Rattle.st_mnemonic.specs.declared.form.Form.{Form as FormOf};

use crate::shapes::{
    expression_alone, index_alone, index_and_list, index_and_spot, index_word_parts, number_alone,
    operand, spot_alone, spot_and_number, two_addresses, two_addresses_and_number, without_fields,
};
use crate::statement::{CompactStatement, Statement};
use st_bits::{BranchOp, ConnKind, HalfOp, VflOp};
use st_card::Fault;
use st_mnemonic::{FieldText, Form, Operation};

// Parses the statement of an operation on an index word.
pub(crate) fn parse_half(op: HalfOp, fields: &[FieldText]) -> Result<CompactStatement, Fault>
    ensures { (form : FormOf) → result ≡ spec.with_fields (Operation.Half op) form
        (texts fields.now) }
{
    let (j, at) = index_and_spot(fields)?;
    Ok(Statement::Half { op, j, at })
}

// Parses the statement of LVS.
#[inline(never)]
pub(crate) fn parse_sum(fields: &[FieldText]) -> Result<CompactStatement, Fault>
    ensures { (form : FormOf) → result ≡ spec.with_fields Operation.Sum form (texts fields.now) }
{
    let (j, list) = index_and_list(fields)?;
    Ok(Statement::Sum { j, list })
}

// Parses the statement of R.
pub(crate) fn parse_refill(fields: &[FieldText]) -> Result<CompactStatement, Fault>
    ensures { (form : FormOf) → result ≡ spec.with_fields Operation.Refill form (texts fields.now) }
{
    Ok(Statement::Refill {
        j: index_alone(fields)?,
    })
}

// Parses the statement of EX.
pub(crate) fn parse_execute(fields: &[FieldText]) -> Result<CompactStatement, Fault>
    ensures { (form : FormOf) → result ≡ spec.with_fields Operation.Execute form
        (texts fields.now) }
{
    Ok(Statement::Half {
        op: HalfOp::Ex,
        j: 0,
        at: spot_alone(fields)?,
    })
}

// Parses the statement of a branch.
pub(crate) fn parse_branch(op: BranchOp, fields: &[FieldText]) -> Result<CompactStatement, Fault>
    ensures { (form : FormOf) → result ≡ spec.with_fields (Operation.Branch op) form
        (texts fields.now) }
{
    Ok(Statement::Branch {
        op,
        at: Some(spot_alone(fields)?),
    })
}

// Parses the statement of an operation of the branch group without an address.
pub(crate) fn parse_bare(op: BranchOp, fields: &[FieldText]) -> Result<CompactStatement, Fault>
    ensures { (form : FormOf) → result ≡ spec.with_fields (Operation.Bare op) form
        (texts fields.now) }
{
    without_fields(Statement::Branch { op, at: None }, fields)
}

// Parses the statement of an operation of the floating group.
pub(crate) fn parse_floating(number: u8, fields: &[FieldText]) -> Result<CompactStatement, Fault>
    ensures { (form : FormOf) → result ≡ spec.with_fields (Operation.Floating number) form
        (texts fields.now) }
{
    Ok(Statement::Floating {
        number,
        at: spot_alone(fields)?,
    })
}

// Parses the statement of an operation on a field.
pub(crate) fn parse_vfl(
    op: VflOp,
    negated: bool,
    form: Form,
    fields: &[FieldText],
) -> Result<CompactStatement, Fault>
    ensures { result ≡ spec.with_fields (Operation.Vfl op negated) form (texts fields.now) }
{
    let (at, offset) = operand(form, fields)?;
    Ok(Statement::Vfl {
        op,
        negated,
        form,
        at,
        offset,
    })
}

// Parses the statement of a connective.
pub(crate) fn parse_connect(
    kind: ConnKind,
    table: u8,
    form: Form,
    fields: &[FieldText],
) -> Result<CompactStatement, Fault>
    ensures { result ≡ spec.with_fields (Operation.Connect kind table) form (texts fields.now) }
{
    let (at, offset) = operand(form, fields)?;
    Ok(Statement::Connect {
        kind,
        table,
        form,
        at,
        offset,
    })
}

// Parses the statement of T or SWAP.
pub(crate) fn parse_move(swap: bool, fields: &[FieldText]) -> Result<CompactStatement, Fault>
    ensures { (form : FormOf) → result ≡ spec.with_fields (Operation.Move swap) form
        (texts fields.now) }
{
    let (at, (second, count)) = two_addresses_and_number(fields)?;
    Ok(Statement::Move {
        swap,
        at,
        second,
        count,
    })
}

// Parses the statement of a branch on a bit.
pub(crate) fn parse_bit_branch(
    sense: bool,
    change: u8,
    fields: &[FieldText],
) -> Result<CompactStatement, Fault>
    ensures { (form : FormOf) → result ≡ spec.with_fields (Operation.BitBranch sense change) form
        (texts fields.now) }
{
    let (at, second) = two_addresses(fields)?;
    Ok(Statement::BitBranch {
        sense,
        change,
        at,
        second,
    })
}

// Parses the statement of a branch on an indicator.
pub(crate) fn parse_ind_branch(
    sense: bool,
    off: bool,
    fields: &[FieldText],
) -> Result<CompactStatement, Fault>
    ensures { (form : FormOf) → result ≡ spec.with_fields (Operation.IndBranch sense off) form
        (texts fields.now) }
{
    let (at, second) = two_addresses(fields)?;
    Ok(Statement::IndBranch {
        sense,
        off,
        at,
        second,
    })
}

// Parses the statement of SIC.
pub(crate) fn parse_store_counter(fields: &[FieldText]) -> Result<CompactStatement, Fault>
    ensures { (form : FormOf) → result ≡ spec.with_fields Operation.StoreCounter form
        (texts fields.now) }
{
    let (at, second) = two_addresses(fields)?;
    Ok(Statement::StoreCounter { at, second })
}

// Parses the statement of RD or WR.
pub(crate) fn parse_transfer(write: bool, fields: &[FieldText]) -> Result<CompactStatement, Fault>
    ensures { (form : FormOf) → result ≡ spec.with_fields (Operation.Transfer write) form
        (texts fields.now) }
{
    let (at, count) = spot_and_number(fields)?;
    Ok(Statement::Transfer { write, at, count })
}

// Parses the statement of DD.
pub(crate) fn parse_data(form: Form, fields: &[FieldText]) -> Result<CompactStatement, Fault>
    ensures { result ≡ spec.with_fields Operation.Data form (texts fields.now) }
{
    let (minus, number) = number_alone(fields)?;
    Ok(Statement::Data {
        form,
        minus,
        number,
    })
}

// Parses the statement of XW.
pub(crate) fn parse_index_word(fields: &[FieldText]) -> Result<CompactStatement, Fault>
    ensures { (form : FormOf) → result ≡ spec.with_fields Operation.IndexWord form
        (texts fields.now) }
{
    let (value, (count, (refill, flags))) = index_word_parts(fields)?;
    Ok(Statement::IndexWord {
        value,
        count,
        refill,
        flags,
    })
}

// Parses the statement of SYN.
pub(crate) fn parse_synonym(fields: &[FieldText]) -> Result<CompactStatement, Fault>
    ensures { (form : FormOf) → result ≡ spec.with_fields Operation.Synonym form
        (texts fields.now) }
{
    Ok(Statement::Synonym {
        at: expression_alone(fields)?,
    })
}

// Parses the statement of SLC.
pub(crate) fn parse_set_location(fields: &[FieldText]) -> Result<CompactStatement, Fault>
    ensures { (form : FormOf) → result ≡ spec.with_fields Operation.SetLocation form
        (texts fields.now) }
{
    Ok(Statement::SetLocation {
        at: expression_alone(fields)?,
    })
}

// Parses the statement of DR.
pub(crate) fn parse_reserve(fields: &[FieldText]) -> Result<CompactStatement, Fault>
    ensures { (form : FormOf) → result ≡ spec.with_fields Operation.Reserve form
        (texts fields.now) }
{
    Ok(Statement::Reserve {
        at: expression_alone(fields)?,
    })
}

// Parses the statement of END.
pub(crate) fn parse_end(fields: &[FieldText]) -> Result<CompactStatement, Fault>
    ensures { (form : FormOf) → result ≡ spec.with_fields Operation.End form (texts fields.now) }
{
    Ok(Statement::End {
        at: expression_alone(fields)?,
    })
}
