//! The exit statuses of the program `chart`. docs/chart.md lists them. program.rt returns them, and
//! the `main` of `chart` exits with the number.
//!
//! Proved: `Did` and `IsAnswer` of specs/Answers.antt define the effect of a call for each status;
//! `main` of `chart` is proved to exit with the numbers of specs/Exit.antt of `chart`.
//!
//! Pinned, by specs/Answers.antt, specs/Exit.antt of `chart` and docs/chart.md: the variants and
//! numbers, as scripts of users rely on the numbers. Free: the derived traits.

/// The status of a call of `draw`. The number is the program's exit status.
#[derive(Clone, Copy, Debug, PartialEq, Eq)]
pub enum Status {
    /// The chart was written.
    Done = 0,
    /// The report has none of the requested rows, and a chart that says so was written.
    NoRows = 1,
    /// The words of the command line are invalid. Nothing was read or written.
    Usage = 2,
    /// The report has more than 16,000,000 bytes. Nothing was written.
    ReportTooLong = 3,
    /// A read of the report failed. Nothing was written.
    ReadFault = 4,
    /// A write failed. A prefix of the chart, not all of it, was written.
    WriteFault = 5,
    /// There was not enough memory. Nothing was written.
    NoMemory = 6,
}
