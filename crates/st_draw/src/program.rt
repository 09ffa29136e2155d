//! The program `chart`, apart from standard input and output: it reads a report, and writes its
//! chart. docs/chart.md has the rules. The `main` of `chart` calls `draw`.
//!
//! Proved, by the clause `answer` of `draw`, is `IsAnswer` of specs/Answers.antt: which bytes were
//! read, and that exactly the chart's bytes were written, a proper prefix of them, or none, by the
//! meaning of the words and the status; by the clause `usage`, the status `Usage` comes if and only
//! if the words are invalid. Not proved: speed, and the memory that is used.
//!
//! Pinned, by docs/chart.md, docs/CLAIMS.md and specs/Answers.antt: both clauses; all memory is
//! allocated before the first write; REPORT_LIMIT, the figure of `report_limit`. A new kind of
//! picture needs its word in words.rt, and a case of `picture_of` here and in specs/Answers.antt.
//! Free: the split, if proofs/program follows `draw_report` and `rows_in`.
ghost use Rattle.std.specs.Prelude.{◌≡◌, ◌↔◌, IfOk, None, map, nat_eq, if◌then◌else◌};
ghost use Rattle.std.specs.String.{string_bytes};
ghost use Rattle.st_draw.specs.Answers as spec;
ghost use Rattle.st_draw.specs.Answers.{Did, IsAnswer, Writes};
ghost use Rattle.st_draw.specs.Words.{picture_choice};

use crate::drawing::draw_svg;
use crate::status::Status;
use crate::terminal::draw_text;
use crate::words::{Choice, PictureKind, read_words};
use st_entries::{DrawnEntry, read_timetable, write_log};
use st_io::{ReadError, Sink, Source, read_all, write_all};
use std::alloc::{AllocError, Global};

// The most bytes of a report.
const REPORT_LIMIT: u32 = 16_000_000;

// The number of entries that are rows.
fn rows_in(entries: &[DrawnEntry]) -> u64
    ensures { result ≡ spec.rows_in entries.now }
{
    let mut count = 0;
    let mut rest = entries;
    // Proofs name the loop by its label.
    'entries: while let [entry, after @ ..] = rest {
        if matches!(entry, DrawnEntry::Done { .. }) {
            count += 1;
        }
        rest = after;
    }
    count
}

// The entries to draw: none if none of them is a row.
fn visible(shown: u64, entries: &[DrawnEntry]) -> &[DrawnEntry]
    ensures { result.now ≡ spec.visible_entries shown entries.now }
{
    if shown == 0 { &[] } else { entries }
}

// The bytes of a chart of some kind.
fn picture_of(
    alloc: Global,
    kind: PictureKind,
    report: &[u8],
    entries: &[DrawnEntry],
    counts: (u64, u64),
) -> Result<Vec<u8>, AllocError>
    ensures { IfOk result (λ out. out.items
        ≡ spec.picture_of kind report.now entries.now counts.0 counts.1) }
{
    match kind {
        PictureKind::Svg => draw_svg(alloc, report, entries, counts.0, counts.1),
        PictureKind::Text => draw_text(alloc, report, entries, counts.0, counts.1),
        PictureKind::Kanata => write_log(alloc, report, entries),
    }
}

// The status of a chart with `shown` rows.
fn status_with(shown: u64) -> Status
    ensures { result ≡ (if nat_eq shown 0 then Status.NoRows else Status.Done) }
{
    if shown == 0 {
        Status::NoRows
    } else {
        Status::Done
    }
}

// The requested chart of a report, and its status.
fn picture(alloc: Global, choice: Choice, report: &[u8]) -> Result<(Vec<u8>, Status), AllocError>
    ensures bytes { IfOk result (λ made. made.0.items ≡ spec.picture choice report.now) }
    ensures status { IfOk result (λ made. made.1 ≡ spec.picture_status choice report.now) }
{
    let read = read_timetable(alloc, choice.part, report)?;
    let all = read.entries.as_slice();
    let shown = rows_in(all);
    let entries = visible(shown, all);
    let out = picture_of(alloc, choice.kind, report, entries, (shown, read.later))?;
    Ok((out, status_with(shown)))
}

// Writes the chart of a report that has been read, or returns why it does not.
fn draw_report<K: Sink>(alloc: Global, choice: Choice, report: &[u8], out: &mut K) -> Status
    ensures { Writes choice result (K.output out.old) (K.output out.new) report.now }
{
    let Ok((made, status)) = picture(alloc, choice, report) else {
        return Status::NoMemory;
    };
    match write_all(out, made.as_slice()) {
        Ok(()) => status,
        Err(_) => Status::WriteFault,
    }
}

// Reads a report and writes its chart, or returns why it does not.
fn draw_choice<S: Source, K: Sink>(
    alloc: Global,
    choice: Choice,
    report: &mut S,
    out: &mut K,
) -> Status
    ensures { Did choice result
        (S.input report.old) (S.input report.new) (K.output out.old) (K.output out.new) }
{
    match read_all(alloc, report, REPORT_LIMIT) {
        Ok(text) => draw_report(alloc, choice, text.as_slice(), out),
        Err(ReadError::TooLong) => Status::ReportTooLong,
        Err(ReadError::Failed) => Status::ReadFault,
        Err(ReadError::NoMemory) => Status::NoMemory,
    }
}

/// Draws the timetable of a report of at most 16,000,000 bytes. `words` are the words of the
/// command line after the program's name: `svg`, `text` or `kanata`, with `svg` as the default, and
/// the numbers of the first and the last row, with the first 200 rows as the default. All memory is
/// allocated before the first write.
pub fn draw<S: Source, K: Sink>(
    alloc: Global,
    words: &[String],
    report: &mut S,
    out: &mut K,
) -> Status
    // For each meaning of the words and each status: the bytes that were read, and exactly the
    // bytes that were written.
    ensures answer { IsAnswer (picture_choice (map string_bytes words.now)) result
        (S.input report.old) (S.input report.new) (K.output out.old) (K.output out.new) }

    // The status is that of a bad command line if and only if the words are invalid.
    ensures usage { result ≡ Status.Usage ↔ picture_choice (map string_bytes words.now) ≡ None }
{
    match read_words(words) {
        Some(choice) => draw_choice(alloc, choice, report, out),
        None => Status::Usage,
    }
}
