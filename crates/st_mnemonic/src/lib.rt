//! The parts of a statement: its operation, data description and progressive form, and the texts of
//! its fields, by the rules of docs/strap.md. `st_strap` makes the calls and combines the parts;
//! `st_asm` reads a `Form`.
//!
//! Proved: each call returns what a definition of specs/ says (Table, Describing, Forming, Text).
//!
//! Pinned, by these definitions, docs/strap.md, vectors/mnemonics.txt and vectors/forms.txt:
//! mnemonics, descriptions and forms; by `st_strap`: the exported calls. Free: the private
//! functions and the bodies, with their proofs in proofs/. docs/changing.md says where a new
//! operation goes.
#![tactic(auto, unfolding( //
crate::specs::Describing::described_form, //
crate::specs::Describing::description_of, //
crate::specs::Describing::floating_number, //
crate::specs::Describing::in_mode, //
crate::specs::Describing::may_have, //
crate::specs::Describing::modes, //
crate::specs::Describing::number_to, //
crate::specs::Forming::behind_description, //
crate::specs::Forming::description_in, //
crate::specs::Forming::form_number, //
crate::specs::Forming::form_with_progress, //
crate::specs::Forming::may_have_form, //
crate::specs::Forming::open_group, //
crate::specs::Forming::progressive_forms, //
crate::specs::Table::connective, //
crate::specs::Table::connective_kinds, //
crate::specs::Table::field_operations, //
crate::specs::Table::index_operations, //
crate::specs::Table::negated_operation, //
crate::specs::Table::operation_of_word, //
crate::specs::Table::other_operations, //
crate::specs::Table::truth_tables, //
crate::specs::Text::fields_of, //
crate::specs::Text::group_length, //
crate::specs::Text::statement_text //
))]

mod descriptions;
mod field;
mod form;
mod forms;
mod operations;
mod parts;

pub use descriptions::described_in;
pub use field::{FieldText, Fields};
pub use form::Form;
pub use forms::{progressed, split_description};
pub use operations::{Operation, operation_of};
pub use parts::{begins_with, clean, ends_with, fields, split_word};
