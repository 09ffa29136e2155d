//! Progressive forms, groups as `(V+I)` after the data description, and the choice of the group
//! that is the data description. `st_strap` (reading.rt) calls `split_description` and `progressed`
//! for each card. docs/strap.md has the rules.
//!
//! Proved: the results are `description_in`, `behind_description` and `form_with_progress` of
//! specs/Forming.antt, and `behind_group` of specs/Text.antt. By the clauses `shorter` the rest of
//! a text is no longer than the text, so it still fits 63 bytes.
//!
//! Pinned, by the table `progressive_forms` of specs/Forming.antt, docs/strap.md and
//! vectors/forms.txt: the forms; by docs/instructions.md (the P field): their numbers. Free: the
//! split into functions. All eight numbers of the P field are in use.

ghost use Rattle.std.specs.Prelude.{◌≡◌, ◌≤◌, length};
ghost use Rattle.std.specs.Option.{option_and_then};
ghost use Rattle.st_text.specs.Tables.{row_of};
ghost use Rattle.st_mnemonic.specs.Text.{behind_group};
ghost use Rattle.st_mnemonic.specs.Forming as spec;

use crate::form::Form;
use crate::operations::Operation;
use crate::parts::{begins_with, ends_with, group_length};
use st_format::{FullOp, writes_field};
use st_text::row_of;

// The progressive forms by their groups without the closing parenthesis.
const FORMS: [(&[u8], u8); 7] = [
    (b"(IM", 1),
    (b"(V+I", 2),
    (b"(V+IC", 3),
    (b"(V+ICR", 4),
    (b"(V-I", 5),
    (b"(V-IC", 6),
    (b"(V-ICR", 7),
];

// The number of the progressive form that a group spells, with or without its closing parenthesis;
// `None` if it spells none.
fn form_row(group: &[u8]) -> Option<u8>
    ensures { result ≡ row_of group.now spec.progressive_forms }
{
    row_of(&FORMS, group)
}

// A group without its closing parenthesis, if it has one.
fn unclosed(group: &[u8]) -> &[u8]
    ensures { result.now ≡ spec.open_group group.now }
{
    if ends_with(group, b')') {
        group.split_at(group.len() - 1).0
    } else {
        group
    }
}

/// The data description at the start of a text, a group in parentheses, and the text after it. The
/// description is empty if there is none: a first group that spells a progressive form is not a
/// description.
pub fn split_description(text: &[u8]) -> (&[u8], &[u8])
    ensures description { result.0.now ≡ spec.description_in text.now }
    ensures behind { result.1.now ≡ spec.behind_description text.now }
    ensures lengths { length result.0.now ≤ length text.now }
    ensures shorter { length result.1.now ≤ length text.now }
{
    let (group, behind) = text.split_at(group_length(text));
    if form_row(unclosed(group)).is_some() {
        (&[], text)
    } else {
        (group, behind)
    }
}

/// The form `form` with the progressive form at the start of a text, and the text after that.
/// Without a group the form has no progressive form. The result is `None` if the group spells no
/// progressive form, if the operation does not allow it, or if anything but fields follows it.
pub fn progressed(op: Operation, form: Form, text: &[u8]) -> (Option<Form>, &[u8])
    ensures form { result.0 ≡ spec.form_with_progress op form text.now }
    ensures behind { result.1.now ≡ behind_group text.now }
    ensures shorter { length result.1.now ≤ length text.now }
{
    let (group, behind) = text.split_at(group_length(text));
    // Nothing or fields follow the groups.
    if behind.is_empty() || begins_with(behind, b',') {
        (with_group(op, form, group), behind)
    } else {
        (None, behind)
    }
}

// The form with the progressive form that a group spells, if the operation allows it.
fn with_group(op: Operation, form: Form, group: &[u8]) -> Option<Form>
    ensures { result ≡ option_and_then (spec.form_with_number op form)
        (spec.form_number group.now) }
{
    let p = form_number(group)?;
    if may_have_form(op, form.length, p) {
        Some(Form { p, ..form })
    } else {
        None
    }
}

// The number of a progressive form in a group: 0 for an empty group, `None` for a group that is not
// closed or spells none.
fn form_number(group: &[u8]) -> Option<u8>
    ensures { result ≡ spec.form_number group.now }
{
    if group.is_empty() {
        Some(0)
    } else if ends_with(group, b')') {
        form_row(unclosed(group))
    } else {
        None
    }
}

// Whether an operation with a field of `length` bits allows progressive form `p`.
fn may_have_form(op: Operation, length: u8, p: u8) -> bool
    ensures { result ≡ spec.may_have_form op length p }
{
    p == 0
        || match field_operation(op) {
            Some(full) => p != 1 || (!writes_field(full) && length <= 24),
            None => false,
        }
}

// The operation on a field of an operation, if it is one.
fn field_operation(op: Operation) -> Option<FullOp>
    ensures { result ≡ spec.field_operation_of op }
{
    match op {
        Operation::Vfl { op, .. } => Some(FullOp::Variable(op)),
        Operation::Connect { kind, .. } => Some(FullOp::Connective(kind)),
        _ => None,
    }
}
