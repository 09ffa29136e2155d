//! The cards of a job and the requests of its control cards, by the rules of docs/strap.md;
//! `st_strap` parses what statement cards say. `st_asm`, `st_object` and `st_exch` read cards and
//! lines by these calls; `st_dis` and `st_object` write requests; `st_run`, `st_telling`, `st_top`
//! and `st_account` read them.
//!
//! Proved: each call returns what a definition of specs/ says (Cards, Controls, Faults, Written);
//! the law is `CardsStandInTheirJob` in specs/Laws.antt. Pinned: cards, keywords, limits and names
//! of faults, by these definitions, docs/strap.md, vectors/controls.txt, vectors/faults.txt and
//! model/cards.py. Free: the bodies, if their proofs follow.
#![tactic(auto)]

mod cards;
mod control_cards;
mod faults;
mod keywords;
pub mod limits;
mod written;

pub use cards::{Card, CardKind, columns, split};
pub use control_cards::{CardError, Controls, Signal};
pub use faults::Fault;
pub use keywords::{
    Addition, Control, ControlForm, Keyword, Mark, Number, ORDER, Once, Pair, control_in,
    is_required, keyword_in, keyword_of, place,
};
pub use written::{control_line, push_controls};
