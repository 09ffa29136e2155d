//! The errors of the assembler: `AsmError` for callers (`st_top`, `st_account`), and `PassStop`
//! between the three passes, which add the card's number where they know it. docs/strap.md lists
//! the faults.
//!
//! Proved: by `Explains` of specs/Answers.antt a refusal is exactly the specified one, and
//! `NoMemory` may take the place of any result; `at` is `stopped_at` of specs/Answers.antt. Not
//! proved: that memory suffices for any job.
//!
//! Pinned: the variants, by specs/Answers.antt and the callers, which match them. A new one needs a
//! case there and, as the compiler says, in the callers. Free: the body of `at`.

ghost use Rattle.std.specs.Prelude.{◌≡◌};
ghost use Rattle.st_asm.specs.Answers as spec;

use st_card::Fault;

/// Why a job is not assembled.
#[derive(Clone, Copy, Debug, PartialEq, Eq)]
pub enum AsmError {
    /// A card is refused. `card` is the number, from 1 on, of the first faulty card in the earliest
    /// pass that finds a fault, and `fault` is the first of its faults in that pass.
    Refused { card: u32, fault: Fault },
    /// Memory ran out.
    NoMemory,
}

// Why a pass stops at a card.
#[derive(Clone, Copy)]
pub(crate) enum PassStop {
    // The card has this fault.
    Faulty(Fault),
    // Memory ran out.
    NoMemory,
}

impl PassStop {
    // The error with the number of the card at which the pass stopped.
    pub(crate) fn at(self, card: u32) -> AsmError
        ensures { result ≡ spec.stopped_at card self }
    {
        match self {
            PassStop::Faulty(fault) => AsmError::Refused { card, fault },
            PassStop::NoMemory => AsmError::NoMemory,
        }
    }
}
