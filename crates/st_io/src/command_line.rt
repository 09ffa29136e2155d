//! The arguments of the command line, read from the process. The `main` of `stretch`, `ledger` and
//! `chart` calls `words`; docs/running.md lists the exit statuses.
//!
//! Proved: no call panics. No clause says which arguments `words` returns; docs/TRUST.md lists this
//! among what is trusted.
//!
//! Pinned, by each of these `main` and docs/running.md: the two errors, since `NotText` gives the
//! status of a wrong command and `NoMemory` that of lacking memory. Free: the bodies.
use std::env::{self, Env};
use std::io::{self, ErrorKind};

/// The reason why the arguments are not available.
#[derive(Clone, Copy, Debug, PartialEq, Eq)]
pub enum NoWords {
    /// An argument is not UTF-8, so it is no word of a command.
    NotText,
    /// An allocation of memory failed.
    NoMemory,
}

// The arguments after the program's name.
fn read_words(rt: &(impl Env + AllocGlobal)) -> io::Result<Vec<String>> {
    let mut words = Vec::new(rt.alloc());
    for word in env::args(rt)?.skip(1) {
        words.push(word)?;
    }
    Ok(words)
}

/// The arguments after the program's name.
pub fn words(rt: &(impl Env + AllocGlobal)) -> Result<Vec<String>, NoWords> {
    read_words(rt).map_err(|error| match error.kind() {
        ErrorKind::InvalidData => NoWords::NotText,
        _ => NoWords::NoMemory,
    })
}
