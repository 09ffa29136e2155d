//! The chart of a timetable as lines of text for a terminal: three columns of texts, and 60
//! characters for the axis. docs/chart.md describes the chart. Only program.rt calls `draw_text`.
//!
//! Proved: the bytes are `page_text` of specs/Terminal.antt, unless memory runs out. Texts of a
//! report are made printable by `push_plain` of `st_entries`.
//!
//! Pinned, by this definition, docs/chart.md and the files .txt of vectors/pictures: characters and
//! columns: `.` waits for operands, `-` for its turn, `#` executes, `x` is dropped, `!` an
//! interrupt, `|` a snapshot. Free: the split into functions, if proofs/terminal follows
//! `push_many`, `push_entries` and `push_scale`.
ghost use Rattle.std.specs.Prelude.{◌≡◌, ◌-◌, ◌≤◌, ◌++◌, IfOk, max, replicate};
ghost use Rattle.st_draw.specs.Terminal as spec;

use crate::axis::{Axis, Room, at, axis_of, marks_of};
use crate::drawing::remark;
use st_entries::{
    DrawnEntry, first_text, first_tick, push_decimal, push_plain, second_text, third_text, widest,
    with_dots,
};
use std::alloc::{AllocError, Global};

/// The dimensions that all lines of a page share.
#[derive(Clone, Copy)]
pub struct Page {
    /// The shown ticks.
    pub axis: Axis,
    /// The width of the third texts in characters.
    pub places: usize,
}

// Appends a byte `count` times.
fn push_many(out: &mut Vec<u8>, count: usize, byte: u8) -> Result<(), AllocError>
    ensures { IfOk result (λ _. out.new.items ≡ out.old.items ++ replicate count byte) }
{
    for _ in 0..count {
        out.push(byte)?;
    }
    Ok(())
}

// Appends a text, right-aligned in `width` characters.
fn push_right(out: &mut Vec<u8>, width: usize, text: &[u8]) -> Result<(), AllocError>
    ensures { IfOk result (λ _. out.new.items ≡ out.old.items
        ++ spec.text_at_right width text.now) }
{
    push_many(out, width.saturating_sub(text.len()), b' ')?;
    out.extend_from_slice(text)
}

// Appends three texts in columns; the last one is left-aligned in `width` characters.
fn push_columns(
    out: &mut Vec<u8>,
    places: usize,
    first: &[u8],
    second: &[u8],
    third: &[u8],
) -> Result<(), AllocError>
    ensures { IfOk result (λ _. out.new.items ≡ out.old.items
        ++ spec.text_columns places first.now second.now third.now) }
{
    push_right(out, 7, first)?;
    push_right(out, 10, second)?;
    out.extend_from_slice(b" ")?;
    push_plain(out, third)?;
    push_many(out, places.saturating_sub(third.len()), b' ')?;
    out.extend_from_slice(b" ")
}

// The column of a tick.
fn column(axis: &Axis, tick: u64) -> usize
    requires { 1 ≤ axis.now.span }
    ensures value { result ≡ spec.column axis.now tick }
    ensures inside { result ≤ 60 }
{
    let room = Room { left: 0, width: 60 };
    at(room, *axis, tick) as usize
}

// Appends a bar of a byte from one tick to another, at least `least` characters wide.
fn push_stroke(
    out: &mut Vec<u8>,
    axis: &Axis,
    mark: (u8, usize),
    from: u64,
    to: u64,
) -> Result<(), AllocError>
    requires { 1 ≤ axis.now.span }
    ensures { IfOk result (λ _. out.new.items ≡ out.old.items
        ++ replicate (max mark.1
        (spec.column axis.now to - spec.column axis.now from)) mark.0) }
{
    let width = column(axis, to).saturating_sub(column(axis, from));
    push_many(out, width.max(mark.1), mark.0)
}

// Appends the bars of an entry, after blanks up to its first tick, or its sign.
fn push_strokes(out: &mut Vec<u8>, axis: &Axis, entry: DrawnEntry) -> Result<(), AllocError>
    requires { 1 ≤ axis.now.span }
    ensures { IfOk result (λ _. out.new.items ≡ out.old.items ++ spec.strokes axis.now entry) }
{
    push_many(out, column(axis, first_tick(&entry)), b' ')?;
    match entry {
        DrawnEntry::Done {
            prepared,
            ready,
            turn,
            complete,
            ..
        } => {
            push_stroke(out, axis, (b'.', 0), prepared, ready)?;
            push_stroke(out, axis, (b'-', 0), ready, turn)?;
            push_stroke(out, axis, (b'#', 1), turn, complete)
        }
        DrawnEntry::Dropped { prepared, end, .. } => push_stroke(
            out,
            axis,
            (b'x', 1),
            prepared,
            end,
        ),
        DrawnEntry::Taken { .. } => out.extend_from_slice(b"!"),
        DrawnEntry::Shown { .. } => out.extend_from_slice(b"|"),
    }
}

// Appends the line of an entry.
fn push_entry(
    alloc: Global,
    out: &mut Vec<u8>,
    page: &Page,
    report: &[u8],
    entry: DrawnEntry,
) -> Result<(), AllocError>
    requires { 1 ≤ page.now.axis.span }
    ensures { IfOk result (λ _. out.new.items ≡ out.old.items
        ++ spec.entry_line page.now report.now entry) }
{
    let first = first_text(alloc, entry)?;
    let second = second_text(alloc, entry)?;
    let third = with_dots(alloc, third_text(report, entry))?;
    push_columns(
        out,
        page.places,
        first.as_slice(),
        second.as_slice(),
        third.as_slice(),
    )?;
    push_strokes(out, &page.axis, entry)?;
    out.extend_from_slice(b"\n")
}

// Appends the lines of entries.
fn push_entries(
    alloc: Global,
    out: &mut Vec<u8>,
    page: &Page,
    report: &[u8],
    entries: &[DrawnEntry],
) -> Result<(), AllocError>
    requires { 1 ≤ page.now.axis.span }
    ensures { IfOk result (λ _. out.new.items ≡ out.old.items
        ++ spec.entry_lines page.now report.now entries.now) }
{
    let mut rest = entries;
    // Proofs name the loops by their labels.
    'entries: while let [entry, after @ ..] = rest {
        push_entry(alloc, out, page, report, *entry)?;
        rest = after;
    }
    Ok(())
}

// Appends the number of a marked tick to a line, in the tick's column; nothing if it would touch
// the previous text.
fn push_mark(line: &mut Vec<u8>, page: &Page, tick: u64) -> Result<(), AllocError>
    requires axis { 1 ≤ page.now.axis.span }
    requires places { page.now.places ≤ 40 }
    ensures { IfOk result (λ _. line.new.items ≡ spec.line_with_tick page.now line.old.items tick) }
{
    let place = 19 + page.places + column(&page.axis, tick);
    if place <= line.len() {
        return Ok(());
    }
    push_many(line, place - line.len(), b' ')?;
    push_decimal(line, u128::from(tick))
}

// Appends the numbers of marked ticks to a line, each in its column, except those that would touch
// the previous text.
fn push_scale(line: &mut Vec<u8>, page: &Page, ticks: &[u64]) -> Result<(), AllocError>
    requires axis { 1 ≤ page.now.axis.span }
    requires places { page.now.places ≤ 40 }
    ensures { IfOk result (λ _. line.new.items ≡ spec.scale page.now line.old.items ticks.now) }
{
    let mut rest = ticks;
    'ticks: while let [tick, after @ ..] = rest {
        push_mark(line, page, *tick)?;
        rest = after;
    }
    Ok(())
}

// The line above the rows: the meaning of its numbers, and marked ticks; or that there is no entry.
fn head(alloc: Global, page: &Page, entries: &[DrawnEntry]) -> Result<Vec<u8>, AllocError>
    requires axis { 1 ≤ page.now.axis.span }
    requires places { page.now.places ≤ 40 }
    ensures { IfOk result (λ out. out.items ≡ spec.head page.now entries.now) }
{
    if entries.is_empty() {
        return Vec::from_slice(alloc, b"no rows\n");
    }
    let mut out = Vec::new(alloc);
    let marks = marks_of(alloc, page.axis)?;
    push_right(&mut out, 18 + page.places, b"ticks")?;
    push_scale(&mut out, page, marks.as_slice())?;
    out.extend_from_slice(b"\n")?;
    Ok(out)
}

// Appends the key of the characters in the bars.
fn push_key(out: &mut Vec<u8>) -> Result<(), AllocError>
    ensures { IfOk result (λ _. out.new.items ≡ out.old.items ++ spec.key) }
{
    out.extend_from_slice(
        b". waiting for operands  - waiting for its turn  # executing  x dropped\n\
        ! interrupt  | snapshot\n",
    )
}

/// Draws entries as lines of text: `shown` of them are rows, and `later` rows follow.
pub fn draw_text(
    alloc: Global,
    report: &[u8],
    entries: &[DrawnEntry],
    shown: u64,
    later: u64,
) -> Result<Vec<u8>, AllocError>
    ensures { IfOk result (λ out. out.items ≡ spec.page_text report.now entries.now shown later) }
{
    let page = Page {
        axis: axis_of(entries, 60),
        places: widest(report, entries),
    };
    let remark = remark(alloc, shown, later)?;
    let mut out = head(alloc, &page, entries)?;
    push_entries(alloc, &mut out, &page, report, entries)?;
    push_key(&mut out)?;
    out.extend_from_slice(remark.as_slice())?;
    out.extend_from_slice(b"\n")?;
    Ok(out)
}
