//! The devices of the exchange, by the rules of docs/machine.md: the cards in the card reader
//! (`Hopper`), and the text that the printer prints of eight words (`print_text`). `st_run` serves
//! the orders of a job by both, and decides when an order takes effect; `st_top`, `st_sweep` and
//! `st_account` pass a `Hopper` on, and `st_lines` calls `print_text`.
//!
//! Proved: the cards are `reader_cards` of specs/Reader.antt, the text is `line_of_words` of
//! specs/Printer.antt; the law `CardsAreEightWords` is in specs/Laws.antt. Pinned, by these
//! definitions, docs/machine.md, docs/CLAIMS.md and vectors/orders.txt: the public calls. Free: all
//! that is private.
#![tactic(auto)]

mod hopper;
mod printer;

pub use hopper::Hopper;
pub use printer::print_text;
