//! A job with its cards: the bytes of its text, split once, for the assembler, the listing and the
//! reader. program.rt and execution.rt make a `Job`; execution.rt and listing.rt read it; no other
//! crate uses it. `made` is the seed and the number of cards of a generated deck (`soak`,
//! docs/deck.md).
//!
//! Proved: nothing is computed here. The ghost field `cards_are` carries the proof that the cards
//! are those of the text, so that no caller proves it again.
//!
//! Pinned, by the proofs of execution.rt and listing.rt: `cards_are`, and with it `text` and
//! `cards`. Free: further fields.
ghost use Rattle.std.specs.Prelude.{◌≡◌};
ghost use Rattle.st_card.specs.Cards.{cards_of};

use st_card::Card;

/// A job that is split into cards.
#[derive(Clone, Copy)]
pub struct Job<'a> {
    /// The seed and the number of cards, if the job is a generated deck.
    pub made: Option<(u64, u32)>,
    /// The bytes of the job.
    pub text: &'a [u8],
    /// All its cards, in order.
    pub cards: &'a [Card],
    ghost cards_are: { cards.now ≡ cards_of text.now },
}
