//! The program: `main` passes standard input, standard output and the words of the command line to
//! `stretch` of `st_top`, and exits with its status. docs/running.md has the commands and statuses.
//! The words are those after the program's name; words that are no text give status 2, want of
//! memory gives 6.
//!
//! Proved: the exit code is the number of the status (`number_of` in specs/Exit.antt); all else is
//! the contract of `stretch`, which docs/THEOREM.md explains. Not proved: `main` itself, which has
//! no contract, since the devices of the process are only known as far as `st_io` describes them.
//!
//! Pinned, by `number_of` and docs/running.md: the numbers of `Status`. A new status needs a case
//! in `exit` and in `number_of`. Free: the body of `exit`.
#![tactic(auto)]

ghost use Rattle.std.specs.Prelude.{◌≡◌};
ghost use Rattle.std.specs.Process.{exit_status};
ghost use Rattle.stretch.specs.Exit.{number_of};

use st_io::{NoWords, StdSink, StdSource, words};
use st_top::{Status, stretch};
use std::io;
use std::process::ExitCode;

fn main(rt: HostRuntime) -> ExitCode {
    let words = match words(&rt) {
        Ok(words) => words,
        Err(NoWords::NotText) => return exit(Status::Usage),
        Err(NoWords::NoMemory) => return exit(Status::NoMemory),
    };
    let mut job = StdSource::new(rt.reader());
    let mut out = StdSink::new(io::writer(&rt));
    let answer = stretch(rt.alloc(), words.as_slice(), &mut job, &mut out);
    exit(answer.status)
}

// The exit code of a status.
fn exit(status: Status) -> ExitCode
    ensures { exit_status result ≡ number_of status }
{
    ExitCode::from(status as u8)
}
