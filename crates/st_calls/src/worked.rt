//! Tests of the whole program over sources and sinks in memory that fail. The folder vectors has
//! the tests of runs without failures. decks.rt has the jobs and their reports; failures.rt and
//! delays.rt have the tests; the helpers here call `stretch` with one word, a job, and the numbers
//! of the read and the write that fail.
//!
//! Proved: nothing of the tests, except that they keep the preconditions of the calls. Pinned:
//! nothing, since only failures.rt and delays.rt call the helpers. Free: the helpers.
use st_io::{MemSink, MemSource, Sink, Source};
use st_top::{Answer, stretch};
use std::alloc::Global;
use std::test::Fail;

mod decks;
mod delays;
mod failures;

// Calls the program with a word of the command line and a job. This function has no contract, so
// the tests do not carry that of the program.
fn answered<S: Source, K: Sink>(
    alloc: Global,
    word: &str,
    job: &mut S,
    out: &mut K,
) -> Result<Answer, Fail> {
    let words = [String::from_str(alloc, word)?];
    Ok(stretch(alloc, &words, job, out))
}

// The result for a job if the read and the write with these numbers fail, counted from 1 (0 is
// none), and the sink has this much room.
fn answer_failing(
    alloc: Global,
    word: &str,
    job: Vec<u8>,
    (read, write, room): (u32, u32, usize),
) -> Result<(Answer, MemSink), Fail> {
    let mut job = MemSource::new(job, [read].to_vec(alloc)?);
    let mut out = MemSink::new(Vec::with_capacity(alloc, room)?, [write].to_vec(alloc)?);
    let answer = answered(alloc, word, &mut job, &mut out)?;
    Ok((answer, out))
}
