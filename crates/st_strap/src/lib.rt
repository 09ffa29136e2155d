//! Statements of the assembler: the meaning of a card, by the rules of docs/strap.md. `st_asm`
//! calls `read_compact` for each statement card, and takes the types of statements from here.
//!
//! Proved: a card is parsed to `statement_of` of specs/Saying.antt. By laws in specs/Laws.antt a
//! card is refused if and only if it has a fault of the list in specs/Faults.antt, and for the
//! first of its faults (`TheFirstFaultOfTheListCounts`); cards of some kinds are read as their
//! operation (`FieldOperationsAreRead`, `IndexOperationsAreRead`, `WaitsAreRead` and others).
//!
//! Pinned, by the proofs of `st_asm` and docs/strap.md: the two calls with their clauses, and the
//! variants of `Statement`. Free: the modules are private, and their split can change.
#![tactic(auto, unfolding( //
crate::specs::Reading::index_fields, //
crate::specs::Reading::index_named, //
crate::specs::Reading::index_parts, //
crate::specs::Reading::index_start, //
crate::specs::Reading::number_result, //
crate::specs::Reading::plain_number, //
crate::specs::Reading::signed_of, //
crate::specs::Saying::alone, //
crate::specs::Saying::clean_statement_of, //
crate::specs::Saying::followed, //
crate::specs::Saying::index_and_list, //
crate::specs::Saying::is_misnamed, //
crate::specs::Saying::operand_spot, //
crate::specs::Saying::reading_of_operation, //
crate::specs::Saying::statement_in_form, //
crate::specs::Saying::two, //
crate::specs::Saying::with_fields, //
crate::specs::Saying::with_number, //
crate::specs::Saying::without_fields //
))]

mod fields;
mod reading;
mod saying;
mod shapes;
mod statement;
mod terms;

pub use reading::{read_compact, read_statement};
pub use st_mnemonic::Form;
pub use statement::{CompactSpot, CompactStatement, Spot, Statement};
