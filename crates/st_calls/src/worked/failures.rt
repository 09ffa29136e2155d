//! Tests with sources and sinks that fail: each read, each write, a full sink, and a write that
//! fails within a line; and a test of the numbers that a sweep returns. They check the status, the
//! bytes written, and the count and tick of the answer of `stretch` (`st_top`), with jobs and
//! reports of decks.rt. Reads are counted: one takes at most 4,096 bytes (`st_io`, tested in
//! devices.rt).
//!
//! Proved: nothing of the results here, only that calls keep their preconditions, and of `Slow` the
//! clauses of `Sink`. The contract of `stretch` states the results for all failures; the tests
//! check that the sources and sinks in memory (`st_io`) fail as its definitions say.
//!
//! Pinned: all counts and ticks, by the jobs of decks.rt and docs/edge.md; those of a changed job
//! are worked out by hand or by the folder model. Free: the helpers, and more cases.
ghost use Rattle.std.specs.Prelude.{◌<◌};
ghost use Rattle.st_io.specs.Memory.{memory_output};

use super::decks::{
    CALM, CALM_LINES, LISTED, LISTING, LOAD, LOADED, PRINTED, PRINTS, SLOW_DIVISION, TABLE_SUM,
    TABLE_SUMMED, TRACE, TRACED,
};
use super::{answer_failing, answered};
use st_io::{Failed, MemSink, Sink, SureSource};
use st_top::Status;
use std::alloc::Global;
use std::test::Fail;

// Fails with the given message if a condition does not hold.
fn check(holds: bool, shows: &'static str) -> Result<(), Fail> {
    if holds { Ok(()) } else { Err(Fail::new(shows)) }
}

// A job after this number of comment cards, which have two bytes each: an asterisk and a line end.
fn behind_comments(alloc: Global, comments: u32, job: &str) -> Result<Vec<u8>, Fail> {
    let mut bytes = Vec::new(alloc);
    for _ in 0..comments {
        bytes.extend_from_slice(b"*\n")?;
    }
    bytes.extend_from_slice(job.as_bytes())?;
    Ok(bytes)
}

// The status and the number of bytes written if the `read`-th read, counted from 1, of a job after
// comment cards fails. The three numbers for `answer_failing` are the read that fails, the write
// that fails (0 is none) and the room of the sink in bytes; 4000 is more than any report here has.
fn at_read(alloc: Global, comments: u32, job: &str, read: u32) -> Result<(Status, usize), Fail> {
    let job = behind_comments(alloc, comments, job)?;
    let (answer, out) = answer_failing(alloc, "run", job, (read, 0, 4000))?;
    Ok((answer.status, out.bytes().len()))
}

#[test]
fn each_read_that_fails_leaves_nothing_written(rt: HostRuntime) -> Result<(), Fail> {
    // A read takes at most 4096 bytes, and the last one finds the end. The three cards of `LOAD`
    // after 19,997 comments are the most cards of a job, 20,000; its 40,048 bytes are ten reads.
    for (comments, job, reads) in [(0, LOAD, 2), (0, TABLE_SUM, 2), (19_997, LOAD, 11)] {
        for read in 1..reads + 1 {
            let failed = at_read(rt.alloc(), comments, job, read)?;
            check(failed == (Status::ReadFault, 0), "a read that fails")?;
        }
        let (status, _) = at_read(rt.alloc(), comments, job, reads + 1)?;
        check(status == Status::Done, "a read that is not made")?;
    }
    Ok(())
}

// A command, its job and its output, and for each group of lines the number of instructions that
// have completed when the group is written: each group ends before the named line, counted from 0.
// The counts can be read in the reports: after `TRC` and `AFTER`, and after `DONE` for the last
// group; a listing, a sweep and a refusal have 0.
#[derive(Clone, Copy)]
struct Written {
    // The command.
    word: &'static str,
    // The bytes of the job.
    job: &'static str,
    // The whole output.
    report: &'static str,
    // For each group of lines: the first line after it, and the number of completed instructions.
    groups: &'static [(u32, u64)],
}

const WRITTEN: [Written; 7] = [
    Written {
        word: "run",
        job: LOAD,
        report: LOADED,
        groups: &[(7, 2)],
    },
    // The listing is written before the first instruction.
    Written {
        word: "run",
        job: LISTED,
        report: LISTING,
        groups: &[(7, 0), (14, 2)],
    },
    Written {
        word: "run",
        job: TABLE_SUM,
        report: TABLE_SUMMED,
        groups: &[(11, 6), (24, 15)],
    },
    Written {
        word: "run",
        job: TRACED,
        report: TRACE,
        groups: &[(1, 1), (2, 2), (3, 3), (10, 4)],
    },
    // The printer prints after the second instruction.
    Written {
        word: "run",
        job: PRINTS,
        report: PRINTED,
        groups: &[(1, 2), (6, 4)],
    },
    // A sweep whose write fails has completed no instruction.
    Written {
        word: "sweep",
        job: CALM,
        report: CALM_LINES,
        groups: &[(9, 0)],
    },
    // The write of a refusal may fail too.
    Written {
        word: "run",
        job: "",
        report: "CARD 1 NO END\n",
        groups: &[(1, 0)],
    },
];

// The number of instructions that have completed when this line is written, counted from 0; `None`
// after the last line.
fn done_at(groups: &[(u32, u64)], line: u32) -> Option<u64> {
    for (end, done) in groups {
        if line < *end {
            return Some(*done);
        }
    }
    None
}

// The first `lines` lines of a report.
fn first_lines(alloc: Global, report: &str, lines: u32) -> Result<Vec<u8>, Fail> {
    let mut issue = Vec::new(alloc);
    let mut left = lines;
    for byte in report.as_bytes() {
        if left == 0 {
            break;
        }
        issue.push(*byte)?;
        if *byte == b'\n' {
            left -= 1;
        }
    }
    Ok(issue)
}

// Makes the write of this line fail, counted from 0, and checks that the lines before it are
// written, or the whole report if there is no such line. Returns whether there is such a line. Each
// line is one write; a report here has fewer than 100 lines.
fn fails_at_line(alloc: Global, run: &Written, line: u32) -> Result<bool, Fail>
    requires { line < 100 }
{
    let job = run.job.as_bytes().to_vec(alloc)?;
    let (answer, out) = answer_failing(alloc, run.word, job, (0, line + 1, 4000))?;
    let Some(done) = done_at(run.groups, line) else {
        let whole = answer.status != Status::WriteFault && out.bytes() == run.report.as_bytes();
        check(whole, run.job)?;
        return Ok(false);
    };
    let issue = first_lines(alloc, run.report, line)?;
    let cut = answer.status == Status::WriteFault
        && answer.done == done
        && out.bytes() == issue.as_slice();
    check(cut, run.job)?;
    Ok(true)
}

#[test]
fn each_write_that_fails_leaves_the_lines_before_it(rt: HostRuntime) -> Result<(), Fail> {
    for run in &WRITTEN {
        for line in 0..100 {
            if !fails_at_line(rt.alloc(), run, line)? {
                break;
            }
        }
    }
    Ok(())
}

// Whether a sink with room for this number of bytes receives a prefix of the report of one load.
// The load has two instructions.
fn holds_front(alloc: Global, room: usize) -> Result<bool, Fail> {
    let job = LOAD.as_bytes().to_vec(alloc)?;
    let (answer, out) = answer_failing(alloc, "run", job, (0, 0, room))?;
    let issue = LOADED.as_bytes().get(..room).ok_or("no such front")?;
    Ok(answer.status == Status::WriteFault && answer.done == 2 && out.bytes() == issue)
}

// The answer of a sweep has the extent of the run on eight levels. By the model in `model/`, the
// thirteen instructions take 58 ticks on a machine of eight look-ahead levels, and 60 on seven.
#[test]
fn a_sweep_answers_with_what_eight_levels_did(rt: HostRuntime) -> Result<(), Fail> {
    let job = SLOW_DIVISION.as_bytes().to_vec(rt.alloc())?;
    let (answer, _) = answer_failing(rt.alloc(), "sweep", job, (0, 0, 4000))?;
    check(answer.done == 13 && answer.ticks == 58, SLOW_DIVISION)
}

#[test]
fn a_sink_that_is_full_holds_a_front_of_the_report(rt: HostRuntime) -> Result<(), Fail> {
    for room in 0..LOADED.len() {
        check(holds_front(rt.alloc(), room)?, "a sink that is full")?;
    }
    Ok(())
}

// A sink that takes at most five bytes at a time. A `Sink` has to take a prefix of the piece, at
// least one byte of a nonempty piece, or fail and take nothing; contracts see its bytes and its
// number of failed writes (`output`), which are those of the sink within (`memory_output`).
#[derive(Drop)]
struct Slow {
    sink: MemSink,
}

impl Sink for Slow {
    ghost output = { λ s. memory_output s.sink };

    fn write(&mut self, piece: &[u8]) -> Result<usize, Failed> {
        let n = piece.len().min(5);
        self.sink.write(&piece[..n])
    }
}

// Whether the program fails as expected if this write of five bytes, counted from 1, fails: with
// these bytes written. The buffer has room for more bytes than the report has.
fn fails_within(alloc: Global, write: u32, written: &str) -> Result<bool, Fail> {
    let buffer = Vec::with_capacity(alloc, 1000)?;
    let mut out = Slow {
        sink: MemSink::new(buffer, [write].to_vec(alloc)?),
    };
    let mut job = SureSource::new(LOAD.as_bytes().to_vec(alloc)?);
    let answer = answered(alloc, "run", &mut job, &mut out)?;
    Ok(
        answer.status == Status::WriteFault
            && answer.done == 2
            && out.sink.bytes() == written.as_bytes(),
    )
}

#[test]
fn a_write_may_fail_within_a_line(rt: HostRuntime) -> Result<(), Fail> {
    for (write, written) in [
        (2, "END W"),
        (4, "END WAIT\nDONE "),
        (5, "END WAIT\nDONE 2\n"),
    ] {
        let cut = fails_within(rt.alloc(), write, written)?;
        check(cut, written)?;
    }
    Ok(())
}
