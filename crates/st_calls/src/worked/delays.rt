//! A test that compares runs with different lists of delays: a loop that changes its own next
//! instruction has one report with each of them. The job and the report are `CHANGING` and
//! `CHANGED` of decks.rt.
//!
//! Proved: nothing of the test. That delays never change such lines is the clause `delays` of
//! `stretch` (program.rt of `st_top`); the test shows it for the hardest kind of program. Pinned:
//! the report, by decks.rt. Free: further lists.

use super::answer_failing;
use super::decks::{CHANGED, CHANGING};
use st_io::Sink;
use st_top::Status;
use std::alloc::Global;
use std::test::Fail;

// A job with one more card.
fn with_card(alloc: Global, job: &str, card: &str) -> Result<Vec<u8>, Fail> {
    let mut bytes = Vec::from_slice(alloc, job.as_bytes())?;
    bytes.extend_from_slice(card.as_bytes())?;
    Ok(bytes)
}

// Whether the loop that changes its own next instruction has the expected report with this card of
// delays.
fn is_changed(alloc: Global, delays: &str) -> Result<bool, Fail> {
    let job = with_card(alloc, CHANGING, delays)?;
    let (answer, out) = answer_failing(alloc, "run", job, (0, 0, 4000))?;
    Ok(answer.status == Status::Done && out.bytes() == CHANGED.as_bytes())
}

#[test]
fn a_loop_that_changes_its_next_instruction_is_the_same_with_any_delays(
    rt: HostRuntime,
) -> Result<(), Fail> {
    for delays in ["/DELAYS 1\n", "/DELAYS 255\n", "/DELAYS 1 255 3 17\n"] {
        if !is_changed(rt.alloc(), delays)? {
            return Err(Fail::new("another report"));
        }
    }
    Ok(())
}
