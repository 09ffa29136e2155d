//! Runs of a job on machines of one to eight levels, and their lines, for the command `sweep`.
//! docs/timetable.md has the lines ("One to eight levels").
//!
//! Only program.rt calls `execute_sweep`; `st_sweep` makes the runs, with an empty reader. The
//! lines are `LEVELS n TICKS t` for n from 1 to 8, and `CALM 1` or `CALM 0`. The answer has the
//! extent of the run on eight levels. Nothing is written if memory runs out.
//!
//! Proved: the lines are `swept_by` of specs/Output.antt (clause `writes`), and the ticks keep the
//! bound of `KeepsTime` in specs/Answers.antt (clause `in_time`).
//!
//! Pinned, by `sweep_lines` of specs/Sweep.antt, docs/timetable.md and vectors/sweep.txt: the lines
//! and their order. Free: the bodies.
ghost use Rattle.std.specs.Prelude.{◌≡◌, ℕ, List, ◌+◌, ◌≤◌, ◌<◌, ◌^◌, Ok, IfOk, length};
ghost use Rattle.st_bits.specs.Storage.{IsImage};
ghost use Rattle.st_asm.specs.Assembly.{assembly_parts};
ghost use Rattle.st_card.specs.Limits.{IsWithinLimits};
ghost use Rattle.st_io.specs.Lines.{WritesLines};
ghost use Rattle.st_run.specs.Scenes.{IsScene};
ghost use Rattle.st_top.specs.Sweep.{levels_lines, sweep_lines, sweep_start, sweep_of};
ghost use Rattle.st_top.specs.Output.{output_of_sweep, swept_by};
ghost use Rattle.st_top.specs.Answers.{Writes, KeepsTime};

use crate::answer::{Answer, Status};
use st_asm::Assembled;
use st_bits::NoMemory;
use st_card::Controls;
use st_io::{Failed, Sink};
use st_report::{line_calm, line_levels};
use st_sweep::{Swept, SweptJob, sweep};
use st_telling::put;
use std::alloc::Global;

// Writes the lines of machines with `n` levels, `n + 1` levels and so on, given their ticks; the
// last has at most 8 levels.
#[tactic(auto, using(st_io::proofs::Progress::wrote_nothing))]
fn write_levels<K: Sink>(out: &mut K, n: u8, ticks: &[u64]) -> Result<(), Failed>
    requires { n + length ticks.now ≤ 9 }
    ensures { WritesLines (K.output out.old) (K.output out.new) (levels_lines n ticks.now) result }
{
    let Some((&first, more)) = ticks.split_first() else {
        return Ok(());
    };
    put(out, &line_levels(n, first))?;
    write_levels(out, n + 1, more)
}

// Writes the lines of a sweep.
fn write_sweep<K: Sink>(out: &mut K, swept: Swept) -> Result<(), Failed>
    ensures { WritesLines (K.output out.old) (K.output out.new) (sweep_lines swept) result }
{
    write_levels(out, 1, &swept.ticks)?;
    put(out, &line_calm(swept.hazard_free))
}

// Writes the lines of a sweep. Returns the answer, with the extent of the run on eight levels.
fn answer_swept<K: Sink>(out: &mut K, swept: Swept) -> Answer
    ensures { (delays : List ℕ) → Writes result.status (K.output out.old) (K.output out.new)
        (output_of_sweep delays swept) result }
{
    match write_sweep(out, swept) {
        Ok(()) => Answer {
            status: Status::Done,
            done: swept.done,
            ticks: swept.ticks[7],
        },
        Err(_) => Answer {
            status: Status::WriteFault,
            done: 0,
            ticks: 0,
        },
    }
}

// Runs an image from a start, with an empty reader, on machines of one to eight levels.
fn sweep_image(
    alloc: Global,
    image: &[u64],
    start: u32,
    controls: &Controls,
) -> Result<Swept, NoMemory>
    requires image { IsImage image.now }
    requires counter { start < 2 ^ 19 }
    requires limits { IsWithinLimits controls.now }
    requires budget { 1 ≤ controls.now.budget }
    requires delays { 1 ≤ length controls.now.delays }

    ensures value { IfOk result (λ swept. swept ≡ sweep_of image.now start controls.now) }
    ensures scene { IsScene (sweep_start image.now start controls.now) }
{
    let job = SweptJob {
        image,
        start,
        delays: controls.delays(),
        signals: controls.signals(),
        budget: controls.budget(),
    };
    sweep(alloc, &job)
}

/// Runs an assembled job on machines of one to eight levels, and writes the lines of the sweep.
#[tactic(auto, using(st_bits::specs::Storage::words_of_storage_is, crate::proofs::Times::keeps_still))]
pub fn execute_sweep<K: Sink>(alloc: Global, program: &Assembled, out: &mut K) -> Answer
    requires image { IsImage program.now.image.items }
    requires counter { program.now.start < 2 ^ 19 }
    requires limits { IsWithinLimits program.now.controls }
    requires budget { 1 ≤ program.now.controls.budget }
    requires delays { 1 ≤ length program.now.controls.delays }

    ensures writes { Writes result.status (K.output out.old) (K.output out.new)
        (swept_by (Ok (assembly_parts program.now))) result }
    ensures in_time { KeepsTime program.now.controls.delays result }
{
    let words = program.image.as_slice();
    let Ok(swept) = sweep_image(alloc, words, program.start, &program.controls) else {
        return Answer::without_run(Status::NoMemory);
    };
    answer_swept(out, swept)
}
