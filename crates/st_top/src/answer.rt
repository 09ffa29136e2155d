//! The result of a call of the program: the status, which is the exit status of the process, and
//! the extent of the run in instructions and ticks. docs/running.md lists the statuses. program.rt,
//! execution.rt, objects.rt, refusal.rt and sweeping.rt make an `Answer`; the `main` of `stretch`
//! turns the status into the exit code.
//!
//! Proved, by the clauses of `stretch` (program.rt): for each status what was read and written is
//! `Did` and `Writes` of specs/Answers.antt; every status but `NoMemory` is returned only with its
//! cause. Not proved: that memory ran out for `NoMemory`.
//!
//! Pinned, by docs/running.md, users' scripts and `number_of` of `stretch` (specs/Exit.antt there):
//! the numbers 0 to 6. A new status needs its case in `Did`, `Writes` and `number_of`, and in
//! `exit` of `stretch`. Free: the body of `without_run`, the only code.
ghost use Rattle.std.specs.Prelude.{◌≡◌};

/// The result of a call of `stretch`. The number is the program's exit status.
#[derive(Clone, Copy, Debug, PartialEq, Eq)]
pub enum Status {
    /// The whole output was written: the report of a run, an object text or a deck.
    Done = 0,
    /// The job was refused, or its deck has too many cards. The line of the refusal was written.
    Refused = 1,
    /// The words of the command line are no valid command. Nothing was read or written.
    Usage = 2,
    /// The job has more than 2,000,000 bytes. Nothing was written.
    JobTooLong = 3,
    /// A read of the job failed. Nothing was written.
    ReadFault = 4,
    /// A write failed. Only a first part of the output was written.
    WriteFault = 5,
    /// Memory ran out. Nothing was written.
    NoMemory = 6,
}

/// The result of a call of `stretch`, with the extent of the run.
#[derive(Clone, Copy, Debug, PartialEq, Eq)]
pub struct Answer {
    /// The result of the call.
    pub status: Status,
    /// The number of completed instructions; after a failed write, their number at the line that
    /// could not be written.
    pub done: u64,
    /// The tick of the last completion, 0 before the first; after a failed write, this tick at the
    /// line that could not be written.
    pub ticks: u64,
}

impl Answer {
    /// The answer of a call without a run.
    pub fn without_run(status: Status) -> Answer
        ensures status { result.status ≡ status }
        ensures done { result.done ≡ 0 }
        ensures ticks { result.ticks ≡ 0 }
    {
        Answer {
            status,
            done: 0,
            ticks: 0,
        }
    }
}
