//! The exit statuses of the program `ledger`; the numbers are those of `stretch` (`st_top`,
//! docs/running.md). program.rt returns them, and the `main` of `ledger` exits with the number.
//!
//! Proved: specs/Answers.antt defines what was read and written for each (`Did`, `Writes`); every
//! status but `NoMemory` is returned only with its cause. `main` of `ledger` is proved to exit with
//! the numbers of its specs/Exit.antt.
//!
//! Pinned: the variants, by specs/Answers.antt and docs/ledger.md; their numbers, by
//! specs/Exit.antt of `ledger` and docs/running.md. A new status needs its case in these
//! definitions and in the `main` of `ledger`. Free: the derived traits.

/// The status of a call of `ledger`. The number is the program's exit status.
#[derive(Clone, Copy, Debug, PartialEq, Eq)]
pub enum Status {
    /// The whole ledger was written.
    Done = 0,
    /// The job was refused, and the line of the refusal was written.
    Refused = 1,
    /// The words of the command line are invalid. Nothing was read or written.
    Usage = 2,
    /// The job has more than 2,000,000 bytes. Nothing was written.
    JobTooLong = 3,
    /// A read of the job failed. Nothing was written.
    ReadFault = 4,
    /// A write failed. A prefix of the lines, not all of them, was written.
    WriteFault = 5,
    /// There was not enough memory. Nothing was written.
    NoMemory = 6,
}
