//! Runs of jobs: the listing, if it is requested, followed by the report of the run. docs/report.md
//! has the lines.
//!
//! program.rt calls `execute` for an assembled job, and `execute_loaded` for an object text, whose
//! reader is empty. All memory is allocated before the first line, so a job writes nothing if
//! memory runs out.
//!
//! Proved: the lines are `ran_by` and `loaded_by` of specs/Output.antt (clauses `writes`), the
//! answer has the moment of the end or of the line that failed, and the ticks keep the bound of
//! `KeepsTime` in specs/Answers.antt (clauses `in_time`).
//!
//! Pinned, by `ran_by` and docs/report.md: the order of listing and report. Pinned, by the law
//! `LevelsInFigures` (specs/Laws.antt): four levels (`LEVELS` of reporting.rt). Free: the
//! allocations.
ghost use Rattle.std.specs.Prelude.{◌≡◌, ◌≤◌, ◌<◌, ◌^◌, None, Ok, All, IfOk, IfSome, OnOk, OnErr, [], ◌++◌, length};
ghost use Rattle.st_bits.specs.Storage.{IsImage};
ghost use Rattle.st_asm.specs.Assembly.{assembly_parts};
ghost use Rattle.st_asm.specs.Sound.{IsAssemblySound, IsSymbol};
ghost use Rattle.st_card.specs.Cards.{cards_of};
ghost use Rattle.st_card.specs.Limits.{IsWithinLimits};
ghost use Rattle.st_run.specs.Scenes.{IsScene};
ghost use Rattle.st_run.specs.Run.{Scene as SceneOf};
ghost use Rattle.st_io.specs.Event.{at_moment};
ghost use Rattle.st_object.specs.Object.{IsProgram};
ghost use Rattle.st_run.specs.ReportedEvents.{reported_events};
ghost use Rattle.st_top.specs.Listing.{HasCards, made_lines, front_lines};
ghost use Rattle.st_top.specs.StepsBack.{events_of_run, moment_at_end, run_report};
ghost use Rattle.st_top.specs.Beside.{IsBesideAtStart, StandsAtStart};
ghost use Rattle.st_telling.specs.Running.{WritesEvents};
ghost use Rattle.st_top.specs.Output.{scene_at_start, ran_by, loaded_by, output_of_run};
ghost use Rattle.st_top.specs.Answers.{Writes, KeepsTime};

use crate::answer::{Answer, Status};
use crate::beside::MachineBeside;
use crate::job::Job;
use crate::listing::write_front;
use crate::reporting::{LEVELS, write_report};
use st_asm::Assembled;
use st_back::Back;
use st_bits::NoMemory;
use st_card::Controls;
use st_exch::Hopper;
use st_io::{Failed, Sink};
use st_object::Image;
use st_run::{Run, RunControls, delays_asked, reader_of_job};
use st_state::State;
use st_telling::Moment;
use std::alloc::Global;

// A prepared run, whose report has not begun.
#[derive(Drop)]
struct RunWithSecond<'a> {
    // The run on the overlapped machine.
    run: Run<'a, LEVELS>,
    // The machine that follows the run and can undo steps, if steps back are requested.
    second: Option<MachineBeside<'a>>,
}

// Writes the lines before the report of a job, then the report of its run.
fn write_output<K: Sink>(
    out: &mut K,
    job: &Job,
    program: &Assembled,
    prepared: &mut RunWithSecond<'_>,
    moment: &mut Moment,
) -> Result<(), Failed>
    requires cards { HasCards job.now.text.now program.now.listing.items job.now.cards.now }
    requires symbols { All IsSymbol program.now.symbols.items }
    requires limits { IsWithinLimits program.now.controls }
    requires start { IfSome prepared.old.second IsBesideAtStart }
    requires moment { moment.old ≡ record { done = 0; tick = 0 } }

    ensures { (start : SceneOf) → prepared.old.run.rest ≡ reported_events
        (events_of_run program.now.controls start)
        → StandsAtStart program.now.controls.back start prepared.old.second
        → WritesEvents (K.output out.old) (K.output out.new)
        (at_moment 0 0
        (front_lines job.now.made job.now.text.now (assembly_parts program.now))
        ++ run_report program.now.controls start)
        (moment_at_end program.now.controls start) moment.new result }
{
    write_front(out, job, program)?;
    write_report(
        out,
        &mut prepared.run,
        &mut prepared.second,
        moment,
        &program.controls,
    )
}

// The answer of a run whose report ended at a moment, completely or by a failed write.
fn answer_of(written: Result<(), Failed>, moment: Moment) -> Answer
    ensures done { result.done ≡ moment.done }
    ensures ticks { result.ticks ≡ moment.tick }
    ensures ok { OnOk written (result.status ≡ Status.Done) }
    ensures err { OnErr written (result.status ≡ Status.WriteFault) }
{
    let status = match written {
        Ok(()) => Status::Done,
        Err(_) => Status::WriteFault,
    };
    Answer {
        status,
        done: moment.done,
        ticks: moment.tick,
    }
}

// The machine that follows a run, if steps back are requested. It reads the cards of this job.
fn beside<'a>(
    alloc: Global,
    job: &Job,
    image: &[u64],
    start: u32,
    controls: &'a Controls,
) -> Result<Option<MachineBeside<'a>>, NoMemory>
    requires image { IsImage image.now }
    requires counter { start < 2 ^ 19 }
    requires limits { IsWithinLimits controls.now }

    ensures start { IfOk result (λ second. StandsAtStart controls.now.back
        (scene_at_start image.now start controls.now job.now.text.now) second) }
    ensures ready { IfOk result (λ second. IfSome second IsBesideAtStart) }
{
    let depth = controls.back;
    if depth == 0 {
        return Ok(None);
    }
    let machine = State::new(alloc, image, start)?;
    let hopper = Hopper::of_cards(alloc, job.text, job.cards)?;
    let steps = Back::new(alloc, depth)?;
    Ok(Some(MachineBeside::new(machine, controls.signals(), hopper, steps)))
}

// Allocates all memory of a run: of the machine with an image, a start and controls, and of the
// reader with the cards of a job. The only error is a failed allocation. An image has all words of
// storage, its register words 0; `start` is a half-word address; the controls are requests that
// control cards can make, with a budget of at least 1 and at least one delay.
fn prepare<'a>(
    alloc: Global,
    job: &Job,
    image: &[u64],
    start: u32,
    controls: &'a Controls,
) -> Result<RunWithSecond<'a>, NoMemory>
    requires image { IsImage image.now }
    requires counter { start < 2 ^ 19 }
    requires limits { IsWithinLimits controls.now }
    requires budget { 1 ≤ controls.now.budget }
    requires delays { 1 ≤ length controls.now.delays }

    ensures rest { IfOk result (λ prepared. prepared.run.rest
        ≡ reported_events (events_of_run controls.now
        (scene_at_start image.now start controls.now job.now.text.now))) }
    ensures beside { IfOk result (λ prepared. StandsAtStart controls.now.back
        (scene_at_start image.now start controls.now job.now.text.now) prepared.second) }
    ensures ready { IfOk result (λ prepared. IfSome prepared.second IsBesideAtStart) }
    ensures scene { IfOk result
        (λ prepared. IsScene (scene_at_start image.now start controls.now job.now.text.now)) }
{
    let state = State::new(alloc, image, start)?;
    let hopper = reader_of_job(alloc, job.text, job.cards)?;
    let delays = delays_asked(alloc, controls)?;
    let second = beside(alloc, job, image, start, controls)?;
    let asked = RunControls {
        signals: controls.signals(),
        snaps: controls.snaps(),
        budget: controls.budget(),
    };
    let run = Run::new(state, delays, hopper, &asked);
    Ok(RunWithSecond { run, second })
}

// Writes the lines before the report of a job and the report of its run. Returns the answer.
fn answer_run<K: Sink>(
    out: &mut K,
    job: &Job,
    program: &Assembled,
    prepared: &mut RunWithSecond<'_>,
) -> Answer
    requires cards { HasCards job.now.text.now program.now.listing.items job.now.cards.now }
    requires symbols { All IsSymbol program.now.symbols.items }
    requires limits { IsWithinLimits program.now.controls }
    requires start { IfSome prepared.old.second IsBesideAtStart }

    ensures { (start : SceneOf) → prepared.old.run.rest ≡ reported_events
        (events_of_run program.now.controls start)
        → StandsAtStart program.now.controls.back start prepared.old.second
        → Writes result.status (K.output out.old) (K.output out.new)
        (output_of_run
        (front_lines job.now.made job.now.text.now (assembly_parts program.now))
        program.now.controls start) result }
{
    let mut moment = Moment::start();
    let written = write_output(out, job, program, prepared, &mut moment);
    answer_of(written, moment)
}

/// Runs an assembled job from its start and writes its report. For a generated deck, the line of
/// its seed and its number of cards comes first. Nothing is written if memory runs out. `sound` and
/// `good` hold of each assembled job: it has an image, a start, one row of the listing for each
/// card, and controls within their limits, and no card has a fault.
#[tactic(auto, using(st_bits::specs::Storage::words_of_storage_is, crate::proofs::Times::keeps_still))]
pub fn execute<K: Sink>(alloc: Global, job: &Job, program: &Assembled, out: &mut K) -> Answer
    requires sound { IsAssemblySound (length (cards_of job.now.text.now))
        (assembly_parts program.now) }
    requires good { All (λ card. card.fault ≡ None) (cards_of job.now.text.now) }
    ensures writes { Writes result.status (K.output out.old) (K.output out.new)
        (ran_by (made_lines job.now.made) job.now.text.now (Ok (assembly_parts program.now))) result }
    ensures in_time { KeepsTime program.now.controls.delays result }
{
    let words = program.image.as_slice();
    let start = program.start;
    let Ok(mut prepared) = prepare(alloc, job, words, start, &program.controls) else {
        return Answer::without_run(Status::NoMemory);
    };
    answer_run(out, job, program, &mut prepared)
}

// Writes the report of the run of a loaded program. Returns the answer.
fn answer_loaded<K: Sink>(
    out: &mut K,
    prepared: &mut RunWithSecond<'_>,
    controls: &Controls,
) -> Answer
    requires limits { IsWithinLimits controls.now }
    requires start { IfSome prepared.old.second IsBesideAtStart }
    ensures { (start : SceneOf) → prepared.old.run.rest ≡ reported_events
        (events_of_run controls.now start)
        → StandsAtStart controls.now.back start prepared.old.second
        → Writes result.status (K.output out.old) (K.output out.new)
        (output_of_run [] controls.now start) result }
{
    let mut moment = Moment::start();
    let written = write_report(
        out,
        &mut prepared.run,
        &mut prepared.second,
        &mut moment,
        controls,
    );
    answer_of(written, moment)
}

/// Runs a loaded program from its start, with an empty reader, and writes its report. The program
/// is one that an object text can contain (`IsProgram`).
#[tactic(auto, using(st_bits::specs::Storage::words_of_storage_is, crate::proofs::Times::keeps_still))]
pub fn execute_loaded<K: Sink>(alloc: Global, program: &Image, out: &mut K) -> Answer
    requires { IsProgram program.now }
    ensures writes { Writes result.status (K.output out.old) (K.output out.new)
        (loaded_by (Ok program.now)) result }
    ensures in_time { KeepsTime program.now.controls.delays result }
{
    let job = Job {
        made: None,
        text: b"",
        cards: &[],
    };
    let words = program.words.as_slice();
    let start = program.start;
    let Ok(mut prepared) = prepare(alloc, &job, words, start, &program.controls) else {
        return Answer::without_run(Status::NoMemory);
    };
    answer_loaded(out, &mut prepared, &program.controls)
}
