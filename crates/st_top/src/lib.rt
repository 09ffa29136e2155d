//! The program: executes a command line on the bytes of a job and writes the lines of its output.
//! docs/running.md has the commands, docs/report.md and docs/object-text.md the output. The `main`
//! of `stretch` calls `stretch` with the words, the input and the output of the process; the tests
//! of `st_calls` call it in memory.
//!
//! Proved: the theorem of the whole program, which is the clauses of `stretch` (program.rt) and
//! which docs/THEOREM.md explains: the output of each command is `output_of` in specs/Output.antt,
//! statuses are in specs/Answers.antt. specs/Laws.antt and DelayLaws.antt have further laws.
//!
//! Pinned, by docs/THEOREM.md, docs/promises.txt and the `main` of `stretch`: what is exported
//! below, with its clauses. Free: everything else, as long as the theorem is proved again.
#![tactic(auto, using(st_bits::specs::Storage::words_of_storage_is))]

mod answer;
mod beside;
mod command;
mod execution;
mod job;
mod layer_error;
mod listing;
mod objects;
mod program;
mod refusal;
mod reporting;
mod sweeping;

pub use answer::{Answer, Status};
pub use program::stretch;
