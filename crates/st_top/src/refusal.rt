//! The line that a refused job prints: the number of the card, from 1, and the name of its fault.
//! docs/report.md has the line, docs/strap.md the faults. Only program.rt calls `refuse`, for a
//! refused job, object text or generated deck; the line is the whole output.
//!
//! Proved: the line is `refusal_output` of specs/Output.antt, and the status is `Refused`, or
//! `WriteFault` if the write fails (clause `writes`).
//!
//! Pinned, by `st_card` and docs/strap.md: the names of faults. Pinned, by `st_report` and
//! docs/report.md: the form of the line. Free: the body.
ghost use Rattle.std.specs.Prelude.{◌≡◌};
ghost use Rattle.st_top.specs.Answers.{Writes};
ghost use Rattle.st_top.specs.Output.{refusal_output};

use crate::answer::{Answer, Status};
use st_card::Fault;
use st_io::Sink;
use st_report::line_fault;
use st_telling::put;

/// Refuses a job at a card: writes its line. Returns the answer.
pub fn refuse<K: Sink>(out: &mut K, card: u32, fault: Fault) -> Answer
    ensures writes { Writes result.status (K.output out.old) (K.output out.new)
        (refusal_output (record { card = card; fault = fault })) result }
    ensures ticks { result.ticks ≡ 0 }
{
    match put(out, &line_fault(card, &fault.name())) {
        Ok(()) => Answer::without_run(Status::Refused),
        Err(_) => Answer {
            status: Status::WriteFault,
            done: 0,
            ticks: 0,
        },
    }
}
