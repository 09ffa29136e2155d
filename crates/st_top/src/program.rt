//! The call of the whole program, `stretch`, and one function for each of its commands.
//! docs/running.md has the commands. The `main` of the crate `stretch` makes the call. Commands are
//! parsed by command.rt, the job is read as a whole (at most 2,000,000 bytes; `soak` reads none),
//! and each function assembles, loads, runs or writes. A private function returns the first error
//! of a layer as `LayerError`; `stretch` gives a status.
//!
//! Proved, by the clauses of `stretch`, as the theorem of the program: for each status, the bytes
//! that were read, the lines that were written and the bound of ticks (`IsAnswer` in
//! specs/Answers.antt), when `Usage` comes, and which lines delays can change (specs/Delays.antt).
//! docs/THEOREM.md explains them.
//!
//! Pinned: these clauses, by docs/THEOREM.md and docs/running.md. Free: the bodies, and the
//! contracts of private functions. A new command is a case of `output_of` and of `Command`, and
//! then of the functions here that the compiler names.
ghost use Rattle.std.specs.Prelude.{◌≡◌, ◌<◌, ◌≤◌, ◌^◌, None, false, map, length};
ghost use Rattle.std.specs.List.{list_all};
ghost use Rattle.std.specs.String.{string_bytes};
ghost use Rattle.st_bits.specs.declared.limits.TheConstants.{LONGEST_JOB};
ghost use Rattle.st_asm.specs.Assembly.{assembly};
ghost use Rattle.st_top.specs.Command.{command_of, IsWithinCards};
ghost use Rattle.st_top.specs.declared.command.TheConstants.{MOST_MADE_CARDS};
ghost use Rattle.st_top.specs.CommandLine.{is_plain};
ghost use Rattle.st_object.specs.Object.{read_text};
ghost use Rattle.st_top.specs.Listing.{made_lines};
ghost use Rattle.st_top.specs.Output.{output_of, ran_by, assembled_by, loaded_by, disassembled_by, swept_by, soak_output};
ghost use Rattle.st_top.specs.Answers.{Did, Acted, IsAnswer, Writes, KeepsTime};
ghost use Rattle.st_top.specs.Delays.{DelaysShowInMarksAlone};
ghost use Rattle.st_top.specs.Layers.{Ends, Tries};

use crate::answer::{Answer, Status};
use crate::command::{Command, read_words};
use crate::execution::{execute, execute_loaded};
use crate::job::Job;
use crate::layer_error::LayerError;
use crate::objects::{answer_deck, answer_object, image_of};
use crate::refusal::refuse;
use crate::sweeping::execute_sweep;
use st_asm::{assemble, assemble_cards};
use st_bits::limits::LONGEST_JOB;
use st_card::split;
use st_gen::make_deck;
use st_io::{Sink, Source, read_all};
use st_object::read_object;
use std::alloc::Global;

// Assembles a job and runs it. The job may be the deck that was generated from a seed and a number
// of cards. Its cards are split once.
fn run_job<K: Sink>(
    alloc: Global,
    made: Option<(u64, u32)>,
    job: &[u8],
    out: &mut K,
) -> Result<Answer, LayerError>
    requires { length job.now < 2 ^ 32 }
    ensures { Ends (K.output out.old) (K.output out.new) (ran_by (made_lines made) job.now (assembly job.now))
        result }
{
    let Ok(cards) = split(alloc, job) else {
        return Err(LayerError::NoMemory);
    };
    let job = Job {
        made,
        text: job,
        cards: cards.as_slice(),
    };
    let program = assemble_cards(alloc, job.text, job.cards)?;
    Ok(execute(alloc, &job, &program, out))
}

// Assembles a job and writes its object text.
#[tactic(auto, using(crate::proofs::Times::keeps_still))]
fn assemble_job<K: Sink>(alloc: Global, job: &[u8], out: &mut K) -> Result<Answer, LayerError>
    requires { length job.now < 2 ^ 32 }
    ensures { Ends (K.output out.old) (K.output out.new) (assembled_by (assembly job.now)) result }
{
    let program = assemble(alloc, job)?;
    Ok(answer_object(alloc, &image_of(program), out))
}

// Loads an object text and runs its program.
fn load_job<K: Sink>(alloc: Global, text: &[u8], out: &mut K) -> Result<Answer, LayerError>
    requires { length text.now ≤ LONGEST_JOB }
    ensures { Ends (K.output out.old) (K.output out.new) (loaded_by (read_text text.now)) result }
{
    let program = read_object(alloc, text)?;
    Ok(execute_loaded(alloc, &program, out))
}

// Reads an object text and writes the deck of its program.
fn disassemble_text<K: Sink>(alloc: Global, text: &[u8], out: &mut K) -> Result<Answer, LayerError>
    requires { length text.now ≤ LONGEST_JOB }
    ensures { Ends (K.output out.old) (K.output out.new) (disassembled_by (read_text text.now)) result }
{
    let program = read_object(alloc, text)?;
    answer_deck(alloc, &program, out)
}

// Assembles a job and runs it on machines of one to eight levels.
fn sweep_job<K: Sink>(alloc: Global, job: &[u8], out: &mut K) -> Result<Answer, LayerError>
    requires { length job.now < 2 ^ 32 }
    ensures { Ends (K.output out.old) (K.output out.new) (swept_by (assembly job.now)) result }
{
    let program = assemble(alloc, job)?;
    Ok(execute_sweep(alloc, &program, out))
}

// Generates a deck, assembles it and runs it.
fn run_made<K: Sink>(
    alloc: Global,
    number: u64,
    cards: u32,
    out: &mut K,
) -> Result<Answer, LayerError>
    requires { cards ≤ MOST_MADE_CARDS }
    ensures { Ends (K.output out.old) (K.output out.new) (soak_output number cards) result }
{
    let Ok(deck) = make_deck(alloc, number, cards) else {
        return Err(LayerError::NoMemory);
    };
    let made = Some((number, cards));
    run_job(alloc, made, deck.as_slice(), out)
}

// Executes a command on the bytes of a job. Returns the first error of a layer below. `soak`
// ignores the job.
#[tactic(auto, unfolding(crate::specs::Output::output_of))]
fn try_job<K: Sink>(
    alloc: Global,
    command: Command,
    job: &[u8],
    out: &mut K,
) -> Result<Answer, LayerError>
    requires job { length job.now ≤ LONGEST_JOB }
    requires cards { IsWithinCards command }
    ensures { Ends (K.output out.old) (K.output out.new) (output_of command job.now (read_text job.now))
        result }
{
    match command {
        Command::Run => run_job(alloc, None, job, out),
        Command::Assemble => assemble_job(alloc, job, out),
        Command::Load => load_job(alloc, job, out),
        Command::Disassemble => disassemble_text(alloc, job, out),
        Command::Sweep => sweep_job(alloc, job, out),
        Command::Soak { number, cards } => run_made(alloc, number, cards, out),
    }
}

// Reads a job and executes a command on it. Returns the first error of a layer below.
#[tactic(auto, using(st_bits::specs::Storage::words_of_storage_is, crate::proofs::Outputs::text_is_read))]
fn try_command<S: Source, K: Sink>(
    alloc: Global,
    command: Command,
    job: &mut S,
    out: &mut K,
) -> Result<Answer, LayerError>
    requires { IsWithinCards command }
    ensures { Tries command (S.input job.old) (S.input job.new) (K.output out.old)
        (K.output out.new) result }
{
    let text = read_all(alloc, job, LONGEST_JOB)?;
    try_job(alloc, command, text.as_slice(), out)
}

// Reads a job and executes a command on it. Writes the refusal if the job is refused.
#[tactic(auto, using(st_bits::specs::Storage::words_of_storage_is, crate::proofs::Times::keeps_still))]
fn answer<S: Source, K: Sink>(alloc: Global, command: Command, job: &mut S, out: &mut K) -> Answer
    requires { IsWithinCards command }
    ensures { Did command result.status
        (S.input job.old) (S.input job.new) (K.output out.old) (K.output out.new) result }
{
    match try_command(alloc, command, job, out) {
        Ok(answer) => answer,
        Err(LayerError::Refused { card, fault }) => refuse(out, card, fault),
        Err(LayerError::TooLong) => Answer::without_run(Status::JobTooLong),
        Err(LayerError::Unread) => Answer::without_run(Status::ReadFault),
        Err(LayerError::NoMemory) => Answer::without_run(Status::NoMemory),
    }
}

// Generates a deck and runs it. Writes the refusal if the deck is refused. No job is read, so the
// two errors of reading do not come (`Halts`).
#[tactic(auto, using(st_bits::specs::Storage::words_of_storage_is, crate::proofs::Times::keeps_still))]
fn answer_made<K: Sink>(alloc: Global, number: u64, cards: u32, out: &mut K) -> Answer
    requires { cards ≤ MOST_MADE_CARDS }
    ensures writes { Writes result.status (K.output out.old) (K.output out.new)
        (soak_output number cards) result }
    ensures in_time { KeepsTime (soak_output number cards).delays result }
{
    match run_made(alloc, number, cards, out) {
        Ok(answer) => answer,
        Err(LayerError::Refused { card, fault }) => refuse(out, card, fault),
        Err(LayerError::TooLong | LayerError::Unread | LayerError::NoMemory) => {
            Answer::without_run(Status::NoMemory)
        }
    }
}

// Executes a command. Returns the answer. A `soak` command has at most 4,000 drawn cards
// (`IsWithinCards`).
fn act<S: Source, K: Sink>(alloc: Global, command: Command, job: &mut S, out: &mut K) -> Answer
    requires { IsWithinCards command }
    ensures { Acted command result.status
        (S.input job.old) (S.input job.new) (K.output out.old) (K.output out.new) result }
{
    match command {
        Command::Soak { number, cards } => answer_made(alloc, number, cards, out),
        Command::Run | Command::Assemble | Command::Load | Command::Disassemble | Command::Sweep =>
            answer(alloc, command, job, out),
    }
}

/// Executes the command in the words of the command line, the program's name not included, on a job
/// of at most 2,000,000 bytes. `run` assembles the job, runs it and writes its report; `assemble`
/// assembles it and writes its object text; `load` reads it as an object text, runs it and writes
/// its report; `disassemble` reads it as an object text and writes its deck; `sweep` assembles it,
/// runs it with an empty reader on machines of one to eight levels, and writes the ticks of each
/// run. `soak` reads no job: it generates the deck of a seed and a number of cards, writes a line
/// with these two, and then runs the deck. Each line is written by itself, and all memory is
/// allocated before the first one. Lines that neither belong to the timetable nor show delays do
/// not depend on the delays (`docs/report.md`, "What depends on the delays").
#[tactic(auto, using(st_bits::specs::Storage::words_of_storage_is, crate::proofs::Delayed::delays_show_in_marks_alone))]
pub fn stretch<S: Source, K: Sink>(
    alloc: Global,
    words: &[String],
    job: &mut S,
    out: &mut K,
) -> Answer
    // For each command and status: the bytes that were read, the lines that were written, and a
    // bound on the ticks of the run.
    ensures answer { IsAnswer (command_of (map string_bytes words.now))
        (S.input job.old) (S.input job.new) (K.output out.old) (K.output out.new) result }

    // The status is `Usage` only if the words are no valid command. An empty word, a word that
    // begins with `-`, no words at all, and more than three words always give it.
    ensures usage { result.status ≡ Status.Usage → command_of (map string_bytes words.now) ≡ None }
    ensures plain { list_all is_plain (map string_bytes words.now) ≡ false
        → result.status ≡ Status.Usage }
    ensures some { length words.now ≡ 0 → result.status ≡ Status.Usage }
    ensures few { 3 < length words.now → result.status ≡ Status.Usage }

    // For every command: the lines that depend on the delays of storage. Two jobs (or object texts
    // for `load` and `disassemble`) that differ only in their delays have equal other lines.
    ensures delays { DelaysShowInMarksAlone }
{
    match read_words(alloc, words) {
        Ok(Some(command)) => act(alloc, command, job, out),
        Ok(None) => Answer::without_run(Status::Usage),
        Err(_) => Answer::without_run(Status::NoMemory),
    }
}
