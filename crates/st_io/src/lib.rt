//! Input and output of bytes: a source and a sink that count their faults, and calls that read a
//! whole source, write a whole piece and write a line. docs/edge.md has the rules. The programs use
//! the standard devices, and tests in `st_calls` those in memory too. The crates between are
//! generic over `Source` and `Sink`, so their clauses hold for each implementation.
//!
//! Proved: each call has the result that specs/ defines: Input.antt and Output.antt for the traits,
//! Lines.antt for lines; a count of faults is `count_after` of specs/Count.antt, which stops at
//! 2^64 - 1. Not proved: what a device does with the bytes.
//!
//! Pinned, by docs/promises.txt, docs/edge.md and the crates that are generic over the traits: the
//! calls listed below, with their clauses, and `count_after`. Free: the split into modules.
#![tactic(auto)]

ghost use Rattle.std.specs.Prelude.{◌≡◌};
ghost use Rattle.st_io.specs.Count.{count_after};

mod buffer;
mod command_line;
mod lines;
mod mem;
mod sink;
mod source;
mod standard;
mod sure;

pub use command_line::{NoWords, words};
pub use lines::write_line;
pub use mem::{MemSink, MemSource};
pub use sink::{Sink, write_all};
pub use source::{ReadError, Source, read_all};
pub use standard::{StdSink, StdSource};
pub use sure::{SureSink, SureSource};

/// A read or a write failed. The count of faults of its source or sink increased.
#[derive(Clone, Copy, Debug, PartialEq, Eq)]
pub struct Failed;

// Adds 1 to a count of faults, which saturates at 2^64 - 1, and returns the error.
fn count_fault(faults: &mut u64) -> Failed
    ensures { faults.new ≡ count_after faults.old 1 }
{
    *faults = faults.saturating_add(1);
    Failed
}
