//! The program `chart`: it passes standard input, standard output and the words of the command line
//! to `draw` of `st_draw`, which does all the work. docs/chart.md has the words and statuses.
//! Nothing else uses this crate.
//!
//! Proved: the exit code of a status is `number_of` of specs/Exit.antt, by the clause of `exit`.
//! The lines are promised by the contract of `draw`. Not proved: `main`, which has no contract; so
//! nothing says that the right streams are connected.
//!
//! Pinned: the numbers of `Status`, by specs/Exit.antt and docs/chart.md. Free: the body of `exit`.
//! A new status needs a case in `exit` and in `number_of`.
#![tactic(auto)]

ghost use Rattle.std.specs.Prelude.{◌≡◌};
ghost use Rattle.std.specs.Process.{exit_status};
ghost use Rattle.chart.specs.Exit.{number_of};

use st_draw::{Status, draw};
use st_io::{NoWords, StdSink, StdSource, words};
use std::io;
use std::process::ExitCode;

// Words that are not UTF-8 count as a bad command line.
fn main(rt: HostRuntime) -> ExitCode {
    let words = match words(&rt) {
        Ok(words) => words,
        Err(NoWords::NotText) => return exit(Status::Usage),
        Err(NoWords::NoMemory) => return exit(Status::NoMemory),
    };
    let mut report = StdSource::new(rt.reader());
    let mut out = StdSink::new(io::writer(&rt));
    let status = draw(rt.alloc(), words.as_slice(), &mut report, &mut out);
    exit(status)
}

// The exit code of a status.
fn exit(status: Status) -> ExitCode
    ensures { exit_status result ≡ number_of status }
{
    ExitCode::from(status as u8)
}
