//! A job with its cards: the bytes of its text, split once, for the assembler, the listing and the
//! reader. Only program.rt of this crate makes and reads a `Job`; the type is not public.
//! docs/strap.md has the rules of cards.
//!
//! Proved: nothing, since there is no function. The ghost field `cards_are` carries the proof that
//! the cards are those of the text (`cards_of` in specs/Cards.antt of `st_card`), so that no
//! function of program.rt proves this again.
//!
//! Pinned: `cards_are`, by the proofs of program.rt, with the fields `text` and `cards`, which it
//! names. Free: further fields.
ghost use Rattle.std.specs.Prelude.{◌≡◌};
ghost use Rattle.st_card.specs.Cards.{cards_of};

use st_card::Card;

/// A job that is split into its cards.
#[derive(Clone, Copy)]
pub(crate) struct Job<'a> {
    /// The bytes of the job.
    pub text: &'a [u8],
    /// All cards of the job, in order.
    pub cards: &'a [Card],
    ghost cards_are: { cards.now ≡ cards_of text.now },
}
