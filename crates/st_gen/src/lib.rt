//! Makes a deck of cards from a seed and a number of cards, for the command `soak`. docs/deck.md
//! has the rules. `st_top` calls `make_deck`, which is all that is public.
//!
//! Proved: the deck is `made_deck` of specs/Deck.antt, unless memory runs out; the law
//! `MadeDecksAreNotRefused` of `st_laws` says that the assembler accepts it. Pinned: the deck of a
//! seed, by the definition, docs/deck.md, vectors/soak.txt and model/deckmaker.py. Free: the
//! bodies, with their proofs.
#![tactic(auto, unfolding(crate::specs::Deck::control, crate::specs::Deck::delay_cards))]

mod deck;
mod form;
mod generator;
mod statement;

pub use deck::make_deck;
