//! The assembler: it turns a job of cards into an image of storage, in three passes, with a
//! listing, by the rules of docs/strap.md. `st_top` and `st_account` assemble jobs by `assemble` or
//! `assemble_cards`; `st_dis` assembles single statements by `emitted_alone`.
//!
//! Proved: the results are `assembly` of specs/Assembly.antt and `emitted_alone` of
//! specs/Alone.antt. Laws about any job are in specs/Laws.antt. `MadeDecksAreNotRefused`
//! (specs/Laws.antt of `st_laws`) is about generated decks, `DecksAssembleToTheirProgram`
//! (specs/Laws.antt of `st_dis`) about the deck of a program.
//!
//! Pinned: the public calls and types with their clauses, by `st_top`, `st_account`, `st_dis` and
//! docs/CLAIMS.md. Free: the modules, which are private, and their split.
#![tactic(auto, using(st_bits::specs::Storage::words_of_storage_is), unfolding( //
crate::specs::Alone::emitted_alone, //
crate::specs::Alone::emitted_by, //
crate::specs::Assembly::assembly, //
crate::specs::Assembly::with_defaults, //
crate::specs::Checks::fits, //
crate::specs::Checks::in_range, //
crate::specs::Checks::in_storage, //
crate::specs::Checks::on_boundary, //
crate::specs::Checks::value_fault, //
crate::specs::Forming::form_card, //
crate::specs::Forming::form_control, //
crate::specs::Forming::form_pass, //
crate::specs::Forming::form_statement, //
crate::specs::Emitting::bits_of, //
crate::specs::Emitting::index_word_bits, //
crate::specs::Lines::name_field, //
crate::specs::Lines::name_in, //
crate::specs::Lines::statement_field, //
crate::specs::Naming::name_fault, //
crate::specs::Naming::name_pass, //
crate::specs::Naming::name_step, //
crate::specs::Numbers::field_bits_of, //
crate::specs::Numbers::holds, //
crate::specs::Symbols::accepts_all, //
crate::specs::Values::value_modulo, //
crate::specs::Values::values_of, //
crate::specs::Valuing::image_with, //
crate::specs::Valuing::value_card, //
crate::specs::Valuing::value_pass, //
crate::specs::Valuing::value_statement //
))]

mod alone;
mod assembling;
mod checks;
mod emitting;
mod forming;
mod line;
mod naming;
mod numbers;
mod places;
mod stop;
mod symbols;
mod values;
mod valuing;

pub use alone::{EmittedBits, emitted_alone};
pub use assembling::{Assembled, assemble, assemble_cards};
pub use naming::Symbol;
pub use stop::AsmError;
pub use valuing::Listed;
