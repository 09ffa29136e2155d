//! Errors before the first line of output: those of the layers below as one type, so that `?` joins
//! them. program.rt turns them into statuses: a refusal into its line and status 1, the others into
//! a status without output. docs/running.md has the statuses. objects.rt passes errors on. Cards
//! and lines are numbered from 1.
//!
//! Proved: each conversion gives the error of specs/Layers.antt (clause `from_gives`).
//!
//! Pinned, by `of_disassembly` of specs/Layers.antt: a deck of the disassembler with too many cards
//! is refused at the first card over the limit. A new error of a layer needs its case in the
//! conversion here and in its definition in specs/Layers.antt; a new variant also one in `Halts`
//! and `Tries` of that file and in the matches of program.rt. Free: the texts of `error`, which no
//! program prints.
ghost use Rattle.std.specs.Prelude.{◌≡◌};
ghost use Rattle.st_top.specs.Layers.{of_reading, of_assembly, of_object, of_disassembly};

use st_asm::AsmError;
use st_bits::limits::MOST_CARDS;
use st_card::Fault;
use st_dis::DisError;
use st_io::ReadError;
use st_object::ObjectError;
use thiserror::Error;

/// An error of a command before any line is written.
#[derive(Debug, Drop, Error)]
pub enum LayerError {
    /// A card of the job, a line of the object text or a card of its deck is refused. Each is
    /// numbered from 1; `fault` says what is wrong with it.
    #[error("card {card} is refused")]
    Refused { card: u32, fault: Fault },
    /// The job has more than 2,000,000 bytes.
    #[error("the job is too long")]
    TooLong,
    /// A read of the job failed.
    #[error("the job could not be read")]
    Unread,
    /// Memory ran out.
    #[error("out of memory")]
    NoMemory,
}

// Each conversion maps the variants one by one; `e` is the error of the layer, `made` the result.
impl From<ReadError> for LayerError {
    ghost from_gives = { λ e made. made ≡ of_reading e };

    fn from(error: ReadError) -> LayerError {
        match error {
            ReadError::TooLong => LayerError::TooLong,
            ReadError::Failed => LayerError::Unread,
            ReadError::NoMemory => LayerError::NoMemory,
        }
    }
}

impl From<AsmError> for LayerError {
    ghost from_gives = { λ e made. made ≡ of_assembly e };

    fn from(error: AsmError) -> LayerError {
        match error {
            AsmError::Refused { card, fault } => LayerError::Refused { card, fault },
            AsmError::NoMemory => LayerError::NoMemory,
        }
    }
}

impl From<ObjectError> for LayerError {
    ghost from_gives = { λ e made. made ≡ of_object e };

    fn from(error: ObjectError) -> LayerError {
        match error {
            ObjectError::Refused { card, fault } => LayerError::Refused { card, fault },
            ObjectError::NoMemory => LayerError::NoMemory,
        }
    }
}

// The number of the first card over the assembler's limit.
const FIRST_CARD_TOO_MANY: u32 = MOST_CARDS + 1;

impl From<DisError> for LayerError {
    ghost from_gives = { λ e made. made ≡ of_disassembly e };

    fn from(error: DisError) -> LayerError {
        match error {
            DisError::TooManyCards { .. } => LayerError::Refused {
                card: FIRST_CARD_TOO_MANY,
                fault: Fault::TooManyCards,
            },
            DisError::NoMemory => LayerError::NoMemory,
        }
    }
}
