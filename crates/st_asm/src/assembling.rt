//! Assembles a job by its three passes: from the bytes of a deck to an image of storage, a start, a
//! listing, symbols and requests. docs/strap.md has the rules and all faults. `st_top` calls
//! `assemble` and `assemble_cards`, `st_account` calls `assemble_cards`.
//!
//! Proved: the result or the refused card is `assembly` of specs/Assembly.antt, unless memory runs
//! out (`Explains`); `sound` says that image, start and controls meet the preconditions of the
//! machine (`IsAssemblySound` in specs/Sound.antt), `faultless` that no card has a fault by itself.
//! The law `PassesStopAtTheFirstFault` in specs/Laws.antt says which card is refused. Not proved:
//! speed, and the memory that is used.
//!
//! Pinned: the order of the passes, by `assembly` and vectors/faults.txt; USUAL_BUDGET and
//! USUAL_DELAY, by `with_defaults` of specs/Assembly.antt and docs/strap.md; both calls and
//! `Assembled`, by `st_top`, `st_account` and the laws of `st_dis`. Free: the bodies, if
//! proofs/assembling follows.

ghost use Rattle.std.specs.Prelude.{◌≡◌, ◌<◌, ◌^◌, All, None, IfOk, IfErr, length, ◌==◌};
ghost use Rattle.st_card.specs.Cards.{cards_of};
ghost use Rattle.st_asm.specs.Answers.{Explains};
ghost use Rattle.st_asm.specs.Assembly as spec;
ghost use Rattle.st_asm.specs.Sound.{IsAssemblySound};

use crate::forming::form_pass;
use crate::naming::{Symbol, name_pass};
use crate::stop::AsmError;
use crate::valuing::{Listed, value_pass};
use st_card::{Card, Controls, split};
use std::alloc::Global;

// The budget in instructions if no card sets it.
const USUAL_BUDGET: u64 = 1_000;

// The delay of storage, in ticks, if no card sets one.
const USUAL_DELAY: u8 = 1;

/// The result of assembling a job.
#[derive(Debug, Drop)]
pub struct Assembled {
    /// The words of storage, 98,304 from word 0 on; words 0 to 31 are zero.
    pub image: Vec<u64>,
    /// The half-word address of the first instruction, below 2^19.
    pub start: u32,
    /// One row for each card, in order.
    pub listing: Vec<Listed>,
    /// The symbols in order of definition.
    pub symbols: Vec<Symbol>,
    /// The requests of the control cards. Without such cards the budget is 1,000 instructions and
    /// there is one delay of 1 tick.
    pub controls: Controls,
}

/// Assembles a job: returns its image, start, listing, symbols and controls, or refuses the first
/// faulty card.
///
/// There are three passes over the cards: the form pass checks each card by itself, the name pass
/// assigns locations and defines names, and the value pass evaluates the expressions. docs/strap.md
/// has the rules and all faults. `NoMemory` means that memory ran out.
pub fn assemble(alloc: Global, job: &[u8]) -> Result<Assembled, AsmError>
    requires { length job.now < 2 ^ 32 }
    ensures ok { IfOk result (λ a. spec.assembly job.now ≡ Ok (spec.assembly_parts a)) }
    ensures err { IfErr result (Explains (spec.assembly job.now)) }

    // The listing has one row for each card, and image, start and controls satisfy the machine's
    // preconditions.
    ensures sound { IfOk result (λ a. IsAssemblySound (length (cards_of job.now))
        (spec.assembly_parts a)) }

    // No card has a fault by itself, so each card's text is printable.
    ensures faultless { IfOk result (λ a. All (λ card. card.fault ≡ None) (cards_of job.now)) }
{
    let Ok(cards) = split(alloc, job) else {
        return Err(AsmError::NoMemory);
    };
    assemble_cards(alloc, job, cards.as_slice())
}

/// Assembles a job whose cards are already split: `cards` must be all cards of `job`, in order. The
/// result is that of `assemble`.
///
/// `NoMemory` means that memory ran out.
pub fn assemble_cards(alloc: Global, job: &[u8], cards: &[Card]) -> Result<Assembled, AsmError>
    requires { cards.now ≡ cards_of job.now }
    ensures ok { IfOk result (λ a. spec.assembly job.now ≡ Ok (spec.assembly_parts a)) }
    ensures err { IfErr result (Explains (spec.assembly job.now)) }

    // The listing has one row for each card, and image, start and controls satisfy the machine's
    // preconditions.
    ensures sound { IfOk result (λ a. IsAssemblySound (length (cards_of job.now))
        (spec.assembly_parts a)) }

    // No card has a fault by itself, so each card's text is printable.
    ensures faultless { IfOk result (λ a. All (λ card. card.fault ≡ None) (cards_of job.now)) }
{
    let deck = form_pass(alloc, job, cards)?;
    let names = name_pass(alloc, deck.lines.as_slice())?;
    let layout = value_pass(
        alloc,
        &names.table,
        deck.lines.as_slice(),
        names.places.as_slice(),
    )?;
    let controls = with_defaults(deck.controls)?;
    Ok(Assembled {
        image: layout.image,
        start: layout.start,
        listing: layout.rows,
        symbols: names.symbols,
        controls,
    })
}

// The controls, with the default budget and delay if no card sets them.
fn with_defaults(mut controls: Controls) -> Result<Controls, AsmError>
    ensures defaults { IfOk result (λ c. c ≡ spec.with_defaults controls) }
    ensures err { IfErr result (λ e. e ≡ AsmError.NoMemory) }
{
    if controls.budget == 0 {
        controls.budget = USUAL_BUDGET;
    }
    if controls.delays.is_empty() && controls.delays.push(USUAL_DELAY).is_err() {
        return Err(AsmError::NoMemory);
    }
    Ok(controls)
}
