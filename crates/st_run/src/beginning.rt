//! The initial data of a run other than its state: the requested delays in ticks, and the reader of
//! a job with its cards. docs/strap.md has the control cards, docs/machine.md the reader.
//!
//! `st_top` and `st_account` call both functions when they prepare a run. In this crate only these
//! two allocate, and want of memory is their only error.
//!
//! Proved: the delays are those of the control cards, and the reader has `reader_cards` of the job
//! (`st_exch`; clause `value`), each card of eight words (clause `shape`).
//!
//! Pinned, by the `requires` clause `some` and the proofs of `st_top` and `st_account`: at least
//! one delay; `st_asm` puts one in if a job asks for none. Free: the bodies.
ghost use Rattle.std.specs.Prelude.{◌≡◌, ◌≤◌, All, IfOk, length};
ghost use Rattle.st_card.specs.Cards.{cards_of};
ghost use Rattle.st_card.specs.Limits.{IsWithinLimits};
ghost use Rattle.st_exch.specs.Reader.{reader_cards};
ghost use Rattle.st_refine.specs.Reached.{IsCard};

use st_banks::Delays;
use st_bits::NoMemory;
use st_card::{Card, Controls};
use st_exch::Hopper;
use std::alloc::Global;

/// The delays of storage that control cards request, at least one, each from 1 to 255 ticks. The
/// only error is a failed allocation.
pub fn delays_asked(alloc: Global, controls: &Controls) -> Result<Delays, NoMemory>
    requires some { 1 ≤ length controls.now.delays }
    requires limits { IsWithinLimits controls.now }
    ensures { IfOk result (λ delays. delays.list ≡ controls.now.delays) }
{
    match Delays::new(alloc, controls.delays.as_slice()) {
        Ok(delays) => Ok(delays),
        Err(_) => Err(NoMemory),
    }
}

/// The reader of a job with the cards `cards`, which are all cards of the job in order. Each card
/// of the reader has eight words. The only error is a failed allocation.
pub fn reader_of_job(alloc: Global, job: &[u8], cards: &[Card]) -> Result<Hopper, NoMemory>
    requires { cards.now ≡ cards_of job.now }
    ensures value { IfOk result (λ hopper. hopper ≡ reader_cards job.now) }
    ensures shape { IfOk result (All IsCard) }
{
    Hopper::of_cards(alloc, job, cards)
}
