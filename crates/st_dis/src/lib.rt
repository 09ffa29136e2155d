//! The disassembler: it turns a program in storage into a deck that assembles to it, by the rules
//! of docs/disassembly.md. `st_top` (objects.rt) calls `disassemble`, the one public function.
//!
//! Proved: the deck is `deck_text` of specs/Deck.antt, by the clause `deck` of `disassemble`. Six
//! laws stand in specs/Laws.antt: `DecksAssembleToTheirProgram` says that the deck assembles to the
//! program; the other five are about its cards, statements and control cards.
//!
//! Pinned, by docs/CLAIMS.md, docs/disassembly.md and vectors/decks.txt: `disassemble` with its
//! clauses, and `DisError`. Free: the private modules, as long as `deck_text` is the result.
#![tactic(auto, unfolding( //
crate::specs::Deck::cards_of_word, //
crate::specs::Deck::deck_text, //
crate::specs::Spelling::statements_of, //
crate::specs::Texts::instruction_text //
))]

mod counting;
mod disassembling;
mod names;
mod pieces;
mod spelling;
mod texts;
mod writing;

pub use disassembling::{DisError, disassemble};
