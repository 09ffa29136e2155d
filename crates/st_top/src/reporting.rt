//! The whole report of a run: its events, then, if `/BACK` requests it, the state some steps before
//! the end. docs/report.md has the rules. execution.rt calls `write_report` with a prepared run and
//! its second machine (beside.rt). `st_telling` writes the lines. The only error is a failed write;
//! the moment is then that of the line that failed.
//!
//! Proved: the lines are `run_report` of specs/StepsBack.antt. That `LEVELS` is 4 is the law
//! `LevelsInFigures` (specs/Laws.antt).
//!
//! Pinned, by `run_report` and docs/report.md: the order of the lines. Pinned, by
//! `LevelsInFigures`, the type of `Run` and `events_of_run`: `LEVELS`; another number changes every
//! timetable. Free: the bodies, and when the second machine runs.
ghost use Rattle.std.specs.Prelude.{◌≡◌, IfSome};
ghost use Rattle.std.specs.List.{AllPass};
ghost use Rattle.st_card.specs.Limits.{IsWithinLimits, is_part};
ghost use Rattle.st_run.specs.Run.{Scene as SceneOf};
ghost use Rattle.st_io.specs.Lines.{WritesLines};
ghost use Rattle.st_run.specs.ReportedEvents.{reported_events};
ghost use Rattle.st_top.specs.StepsBack.{states_of_run, lines_of_steps_back, last_state, events_of_run, moment_at_end, run_report};
ghost use Rattle.st_top.specs.Beside.{IsBesideReady, IsBesideAtStart, StandsAtStart, StandsAtEnd};
ghost use Rattle.st_telling.specs.Running.{WritesEvents};

use crate::beside::{MachineBeside, rewind, run_beside};
use st_card::Controls;
use st_io::{Failed, Sink};
use st_report::line_back;
use st_run::{Run, StateView};
use st_telling::{Moment, put, write_run, write_state};

/// The number of levels of the overlapped machine on which a job runs.
pub const LEVELS: usize = 4;

// Undoes the last steps of the machine that follows a run, if there is one, and writes its state.
#[tactic(auto, using(st_io::proofs::Progress::wrote_nothing))]
fn write_back<K: Sink>(
    out: &mut K,
    second: &mut Option<MachineBeside>,
    controls: &Controls,
) -> Result<(), Failed>
    requires parts { AllPass is_part controls.now.dumps }
    requires ready { IfSome second.old IsBesideReady }
    ensures { (start : SceneOf)
        → StandsAtEnd controls.now.back controls.now.budget start second.old
        → WritesLines (K.output out.old) (K.output out.new)
        (lines_of_steps_back controls.now (states_of_run controls.now start) (last_state
        controls.now start)) result }
{
    let Some(second) = second.as_mut() else {
        return Ok(());
    };
    let steps = rewind(second);
    put(out, &line_back(steps))?;
    write_state(out, &StateView::new(second.state()), controls)
}

/// Writes the report of a run from its start: its events, then the requested state before the end.
/// Afterwards `moment` is that of the line that could not be written, or that of the end.
pub fn write_report<K: Sink>(
    out: &mut K,
    run: &mut Run<'_, LEVELS>,
    second: &mut Option<MachineBeside>,
    moment: &mut Moment,
    controls: &Controls,
) -> Result<(), Failed>
    requires limits { IsWithinLimits controls.now }
    requires start { IfSome second.old IsBesideAtStart }
    ensures { (start : SceneOf) → run.old.rest ≡ reported_events (events_of_run controls.now start)
        → StandsAtStart controls.now.back start second.old
        → WritesEvents (K.output out.old) (K.output out.new) (run_report controls.now start)
        (moment_at_end controls.now start) moment.new result }
{
    write_run(out, run, moment, controls)?;
    run_beside(second, controls.budget());
    write_back(out, second, controls)
}
