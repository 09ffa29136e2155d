//! Parses a statement: the operation, data description, progressive form and fields of a card, and
//! whether its name is allowed. docs/strap.md has the rules. `st_asm` calls `read_compact` for each
//! statement card (form pass, and single statements for the disassembler); no program calls
//! `read_statement`.
//!
//! Proved: both calls return exactly `statement_of` of specs/Saying.antt, the statement or its
//! first fault. That faults count in the order of their list is the law
//! `TheFirstFaultOfTheListCounts` in specs/Laws.antt.
//!
//! Pinned, by `statement_of` and vectors/faults.txt: the order of the steps, which decides which
//! fault counts. Each private function is one step. A new operation needs a case of `with_fields`,
//! here and in specs/Saying.antt, and a function in saying.rt. Free: the split into functions, if
//! proofs/reading follows.

ghost use Rattle.std.specs.Prelude.{◌≡◌, ◌≤◌, length};
ghost use Rattle.st_mnemonic.specs.Fields.{texts};
ghost use Rattle.st_strap.specs.Saying as spec;

use crate::saying::{
    parse_bare, parse_bit_branch, parse_branch, parse_connect, parse_data, parse_end,
    parse_execute, parse_floating, parse_half, parse_ind_branch, parse_index_word, parse_move,
    parse_refill, parse_reserve, parse_set_location, parse_store_counter, parse_sum, parse_synonym,
    parse_transfer, parse_vfl,
};
use crate::statement::{CompactStatement, Statement};
use crate::terms::statement_terms;
use st_card::Fault;
use st_expr::is_name;
use st_mnemonic::{
    FieldText, Form, Operation, clean, described_in, fields, operation_of, progressed,
    split_description, split_word,
};

/// Parses the statement of a card, or returns the first of its faults.
///
/// `name` is columns 2 to 9 without the blanks at both ends, empty if they are blank; `text` is
/// columns 10 to 72, at most 63 bytes. The faults are those of the form pass from `BadName` down to
/// `NumberTooLarge`; if the card has several, the earliest in that list is returned.
pub fn read_statement(name: &[u8], text: &[u8]) -> Result<Statement, Fault>
    requires { length text.now ≤ 63 }
    ensures { result ≡ spec.statement_of name.now text.now }
{
    let statement = read_compact(name, text)?;
    Ok(statement_terms(statement))
}

/// Parses the statement of a card like `read_statement`, but keeps the addresses as their texts.
pub fn read_compact(name: &[u8], text: &[u8]) -> Result<CompactStatement, Fault>
    requires { length text.now ≤ 63 }
    ensures { result ≡ spec.statement_of name.now text.now }
{
    let statement = clean(text);
    read_clean(name, statement.as_slice())
}

// Parses the statement of a name and a text without comment and blanks.
fn read_clean(name: &[u8], statement: &[u8]) -> Result<CompactStatement, Fault>
    requires { length statement.now ≤ 63 }
    ensures { result ≡ spec.clean_statement_of name.now statement.now }
{
    let (word, behind) = split_word(statement);
    let op = operation_of(word);
    if is_misnamed(name, op) {
        return Err(Fault::BadName);
    }
    match op {
        None => Err(Fault::UnknownOperation),
        Some(op) => say(op, behind),
    }
}

// Whether the name is malformed, present on an operation that allows none, or absent on one that
// requires a name.
fn is_misnamed(name: &[u8], op: Option<Operation>) -> bool
    ensures { result ≡ spec.is_misnamed name.now op }
{
    (!name.is_empty() && !is_name(name)) || op.is_some_and(|op| misnames(!name.is_empty(), op))
}

// Whether a name is present on SLC or END, which allow none, or absent on SYN, which requires one.
fn misnames(named: bool, op: Operation) -> bool
    ensures { result ≡ spec.misnames named op }
{
    match op {
        Operation::Synonym => !named,
        Operation::SetLocation | Operation::End => named,
        _ => false,
    }
}

// Parses the statement of an operation with the text after it.
fn say(op: Operation, text: &[u8]) -> Result<CompactStatement, Fault>
    requires { length text.now ≤ 63 }
    ensures { result ≡ spec.reading_of_operation op text.now }
{
    let (description, behind) = split_description(text);
    match described_in(op, description) {
        None => Err(Fault::BadDataDescription),
        Some((op, form)) => parse_formed(op, form, behind),
    }
}

// Parses the statement of an operation with an allowed description and the text after that.
fn parse_formed(op: Operation, form: Form, text: &[u8]) -> Result<CompactStatement, Fault>
    requires { length text.now ≤ 63 }
    ensures { result ≡ spec.statement_in_form op form text.now }
{
    let (form, behind) = progressed(op, form, text);
    match form {
        None => Err(Fault::BadProgressive),
        Some(form) => with_fields(op, form, fields(behind).as_slice()),
    }
}

// Parses the statement of an operation with its form and its fields.
fn with_fields(op: Operation, form: Form, fields: &[FieldText]) -> Result<CompactStatement, Fault>
    ensures { result ≡ spec.with_fields op form (texts fields.now) }
{
    match op {
        Operation::Half(op) => parse_half(op, fields),
        Operation::Sum => parse_sum(fields),
        Operation::Refill => parse_refill(fields),
        Operation::Execute => parse_execute(fields),
        Operation::Branch(op) => parse_branch(op, fields),
        Operation::Bare(op) => parse_bare(op, fields),
        Operation::Floating(number) => parse_floating(number, fields),
        Operation::Vfl { op, negated } => parse_vfl(op, negated, form, fields),
        Operation::Connect { kind, table } => parse_connect(kind, table, form, fields),
        Operation::Move { swap } => parse_move(swap, fields),
        Operation::BitBranch { sense, change } => parse_bit_branch(sense, change, fields),
        Operation::IndBranch { sense, off } => parse_ind_branch(sense, off, fields),
        Operation::StoreCounter => parse_store_counter(fields),
        Operation::Transfer { write } => parse_transfer(write, fields),
        Operation::Data => parse_data(form, fields),
        Operation::IndexWord => parse_index_word(fields),
        Operation::Synonym => parse_synonym(fields),
        Operation::SetLocation => parse_set_location(fields),
        Operation::Reserve => parse_reserve(fields),
        Operation::End => parse_end(fields),
    }
}
