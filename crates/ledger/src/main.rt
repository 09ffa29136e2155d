//! The program `ledger`: it passes standard input, standard output and the words of the command
//! line to `ledger` of `st_account`, and exits with its status. docs/ledger.md has the words,
//! docs/running.md the statuses. The words are those after the program's name; words that are no
//! text give status 2, want of memory gives 6.
//!
//! Proved: the exit code is the number of the status (`number_of` in specs/Exit.antt), by the
//! clause of `exit`. The lines are promised by the contract of `ledger` (program.rt of
//! `st_account`). Not proved: `main` itself, which has no contract.
//!
//! Pinned: the numbers of `Status`, by `number_of` and docs/running.md; the words, by
//! docs/ledger.md and vectors/ledger. Free: the body of `exit`. A new status needs a case in `exit`
//! and in `number_of`.
#![tactic(auto)]

ghost use Rattle.std.specs.Prelude.{◌≡◌};
ghost use Rattle.std.specs.Process.{exit_status};
ghost use Rattle.ledger.specs.Exit.{number_of};

use st_account::{Status, ledger};
use st_io::{NoWords, StdSink, StdSource, words};
use std::io;
use std::process::ExitCode;

fn main(rt: HostRuntime) -> ExitCode {
    let words = match words(&rt) {
        Ok(words) => words,
        Err(NoWords::NotText) => return exit(Status::Usage),
        Err(NoWords::NoMemory) => return exit(Status::NoMemory),
    };
    let mut job = StdSource::new(rt.reader());
    let mut out = StdSink::new(io::writer(&rt));
    let status = ledger(rt.alloc(), words.as_slice(), &mut job, &mut out);
    exit(status)
}

// The exit code of a status.
fn exit(status: Status) -> ExitCode
    ensures { exit_status result ≡ number_of status }
{
    ExitCode::from(status as u8)
}
