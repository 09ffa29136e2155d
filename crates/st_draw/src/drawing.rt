//! The chart of a timetable as SVG, a picture of 640 units in width with a row of 16 units for each
//! entry. docs/chart.md describes the chart. program.rt calls `draw_svg`; terminal.rt calls
//! `remark`.
//!
//! Proved: the bytes are `svg` of specs/Drawing.antt, unless memory runs out. The laws
//! `ElementsAreClosed` and `TextsStayInTheirElements` (specs/Laws.antt) say that each element is
//! closed, and that no text of a report becomes markup. Not proved: how a browser shows the chart.
//!
//! Pinned, by this definition, docs/chart.md and the files .svg of vectors/pictures: figures,
//! classes and texts. A new element needs its place in `drawing` of specs/Drawing.antt and in
//! `draw_svg`. Free: the split into functions, if proofs/drawing follows `push_rows`, `push_grid`
//! and `push_waiting_keys`.
#![tactic(auto, unfolding( //
crate::specs::Drawing::bars, //
crate::specs::Drawing::caption, //
crate::specs::Drawing::chart, //
crate::specs::Drawing::drawing, //
crate::specs::Drawing::ending_keys, //
crate::specs::Drawing::foot, //
crate::specs::Drawing::legend, //
crate::specs::Drawing::line_keys, //
crate::specs::Drawing::mark, //
crate::specs::Drawing::picture_front, //
crate::specs::Drawing::remark, //
crate::specs::Drawing::row_elements, //
crate::specs::Drawing::svg, //
crate::specs::Drawing::waiting_keys //
), using(crate::proofs::Elements::elements_joined, crate::proofs::Elements::elements_one))]

ghost use Rattle.std.specs.Prelude.{◌≡◌, ◌+◌, ◌^◌, ◌<◌, ◌++◌, IfOk, max, ◌-◌};
ghost use Rattle.st_draw.specs.Element.{elements_text, element_text, Line};
ghost use Rattle.st_draw.specs.Drawing as spec;
ghost use Rattle.st_draw.specs.Drawing.{IsSheet};

use crate::attributes::Area;
use crate::axis::{Room, marks_of};
use crate::element::{Point, push_bar, push_card, push_line, push_text};
use crate::frame::{push_box_key, push_ground, push_line_key};
use crate::opening::{preamble, styles};
use crate::sheet::{Sheet, across, sheet_of};
use st_entries::{DrawnEntry, first_text, push_decimal, second_text, third_text, title};
use std::alloc::{AllocError, Global};

// Appends a vertical line across the sheet.
fn push_down(out: &mut Vec<u8>, class: &[u8], sheet: &Sheet, x: u128) -> Result<(), AllocError>
    ensures { IfOk result (λ _. out.new.items ≡ out.old.items
        ++ element_text (Line class.now x 28 x sheet.now.bottom)) }
{
    let area = Area {
        x,
        y: 28,
        across: x,
        down: sheet.bottom,
    };
    push_line(out, class, area)
}

// Appends a marked tick: a vertical line across the sheet with its number above.
fn push_mark(alloc: Global, out: &mut Vec<u8>, sheet: &Sheet, tick: u64) -> Result<(), AllocError>
    requires { IsSheet sheet.now }
    ensures { IfOk result (λ _. out.new.items ≡ out.old.items
        ++ elements_text (spec.mark sheet.now tick)) }
{
    let x = across(sheet, tick);
    push_down(out, b"g", sheet, x)?;
    let mut number = Vec::new(alloc);
    push_decimal(&mut number, u128::from(tick))?;
    push_text(out, b"m", Point { x, y: 22 }, number.as_slice())
}

// Appends marked ticks.
fn push_grid(
    alloc: Global,
    out: &mut Vec<u8>,
    sheet: &Sheet,
    ticks: &[u64],
) -> Result<(), AllocError>
    requires { IsSheet sheet.now }
    ensures { IfOk result (λ _. out.new.items ≡ out.old.items
        ++ elements_text (spec.grid sheet.now ticks.now)) }
{
    let mut rest = ticks;
    // Proofs name the loops by their labels.
    'ticks: while let [tick, after @ ..] = rest {
        push_mark(alloc, out, sheet, *tick)?;
        rest = after;
    }
    Ok(())
}

// Appends a horizontal line in a row.
fn push_along(out: &mut Vec<u8>, class: &[u8], room: Room, y: u128) -> Result<(), AllocError>
    requires { y < 2 ^ 70 }
    ensures { IfOk result (λ _. out.new.items ≡ out.old.items
        ++ element_text (Line class.now room.left (y + 8) (room.left + room.width) (y + 8))) }
{
    let area = Area {
        x: u128::from(room.left),
        y: y + 8,
        across: u128::from(room.left) + u128::from(room.width),
        down: y + 8,
    };
    push_line(out, class, area)
}

// Appends an interrupt or a snapshot: a horizontal line in its row and a vertical one across the
// sheet.
fn push_upright(
    out: &mut Vec<u8>,
    class: &[u8],
    sheet: &Sheet,
    y: u128,
    tick: u64,
) -> Result<(), AllocError>
    requires sheet { IsSheet sheet.now }
    requires low { y < 2 ^ 70 }
    ensures { IfOk result (λ _. out.new.items ≡ out.old.items
        ++ elements_text (spec.upright class.now sheet.now y tick)) }
{
    push_along(out, class, sheet.room, y)?;
    push_down(out, class, sheet, across(sheet, tick))
}

// A bar in the row at y from one x to another, at least `least` wide.
fn bar(y: u128, least: u128, from: u128, to: u128) -> Area
    requires { y < 2 ^ 70 }
    ensures { result ≡ record { x = from; y = y + 3; across = max least (to - from); down = 10 } }
{
    Area {
        x: from,
        y: y + 3,
        across: least.max(to.saturating_sub(from)),
        down: 10,
    }
}

// Appends the contents of an entry's row: a bar for each of its phases, or its lines.
fn push_bars(
    alloc: Global,
    out: &mut Vec<u8>,
    sheet: &Sheet,
    y: u128,
    entry: DrawnEntry,
) -> Result<(), AllocError>
    requires sheet { IsSheet sheet.now }
    requires low { y < 2 ^ 70 }
    ensures { IfOk result (λ _. out.new.items ≡ out.old.items
        ++ elements_text (spec.bars sheet.now y entry)) }
{
    let title = title(alloc, entry)?;
    let title = title.as_slice();
    match entry {
        DrawnEntry::Done {
            prepared,
            ready,
            turn,
            complete,
            ..
        } => {
            let there = across(sheet, ready);
            let start = across(sheet, turn);
            push_bar(out, b"w", bar(y, 0, across(sheet, prepared), there), title)?;
            push_bar(out, b"t", bar(y, 0, there, start), title)?;
            push_bar(out, b"e", bar(y, 1, start, across(sheet, complete)), title)
        }
        DrawnEntry::Dropped { prepared, end, .. } => {
            let bar = bar(y, 1, across(sheet, prepared), across(sheet, end));
            push_bar(out, b"d", bar, title)
        }
        DrawnEntry::Taken { tick, .. } => push_upright(out, b"i", sheet, y, tick),
        DrawnEntry::Shown { tick } => push_upright(out, b"s", sheet, y, tick),
    }
}

// Appends the texts in front of an entry's bars.
fn push_caption(
    alloc: Global,
    out: &mut Vec<u8>,
    report: &[u8],
    y: u128,
    entry: DrawnEntry,
) -> Result<(), AllocError>
    requires { y < 2 ^ 70 }
    ensures { IfOk result (λ _. out.new.items ≡ out.old.items
        ++ elements_text (spec.caption report.now y entry)) }
{
    let first = first_text(alloc, entry)?;
    let second = second_text(alloc, entry)?;
    let y = y + 12;
    push_text(out, b"n", Point { x: 48, y }, first.as_slice())?;
    push_text(out, b"n", Point { x: 110, y }, second.as_slice())?;
    push_card(out, Point { x: 120, y }, third_text(report, entry))
}

// Appends the rows of entries, from top to bottom.
fn push_rows(
    alloc: Global,
    out: &mut Vec<u8>,
    sheet: &Sheet,
    report: &[u8],
    entries: &[DrawnEntry],
) -> Result<(), AllocError>
    requires { IsSheet sheet.now }
    ensures { IfOk result (λ _. out.new.items ≡ out.old.items
        ++ elements_text (spec.rows_elements sheet.now report.now 36 entries.now)) }
{
    let mut y = 36;
    let mut rest = entries;
    'entries: while let [entry, after @ ..] = rest {
        push_caption(alloc, out, report, y, *entry)?;
        push_bars(alloc, out, sheet, y, *entry)?;
        y += 16;
        rest = after;
    }
    Ok(())
}

// Appends the keys of the boxes of entries that wait.
fn push_waiting_keys(out: &mut Vec<u8>, y: u128) -> Result<(), AllocError>
    requires { y < 2 ^ 71 }
    ensures { IfOk result (λ _. out.new.items ≡ out.old.items
        ++ elements_text (spec.waiting_keys y)) }
{
    push_box_key(out, b"w", 12, y, b"waiting for operands")?;
    push_box_key(out, b"t", 186, y, b"waiting for its turn")
}

// Appends the keys of the boxes of entries that execute or are dropped.
fn push_ending_keys(out: &mut Vec<u8>, y: u128) -> Result<(), AllocError>
    requires { y < 2 ^ 71 }
    ensures { IfOk result (λ _. out.new.items ≡ out.old.items
        ++ elements_text (spec.ending_keys y)) }
{
    push_box_key(out, b"e", 360, y, b"executing")?;
    push_box_key(out, b"d", 466, y, b"dropped")
}

// Appends the keys of the lines.
fn push_line_keys(out: &mut Vec<u8>, y: u128) -> Result<(), AllocError>
    requires { y < 2 ^ 71 }
    ensures { IfOk result (λ _. out.new.items ≡ out.old.items
        ++ elements_text (spec.line_keys y)) }
{
    push_line_key(out, b"i", 12, y, b"interrupt")?;
    push_line_key(out, b"s", 186, y, b"snapshot")
}

/// The remark on the numbers of rows that are shown and that follow.
pub fn remark(alloc: Global, shown: u64, later: u64) -> Result<Vec<u8>, AllocError>
    ensures { IfOk result (λ text. text.items ≡ spec.remark shown later) }
{
    let mut text = Vec::new(alloc);
    push_decimal(&mut text, u128::from(shown))?;
    text.extend_from_slice(b" rows, ")?;
    push_decimal(&mut text, u128::from(later))?;
    text.extend_from_slice(b" follow")?;
    Ok(text)
}

// Appends the legend and the remark under it.
fn push_foot(out: &mut Vec<u8>, bottom: u128, remark: &[u8]) -> Result<(), AllocError>
    requires { bottom < 2 ^ 70 }
    ensures { IfOk result (λ _. out.new.items ≡ out.old.items
        ++ elements_text (spec.foot bottom remark.now)) }
{
    push_waiting_keys(out, bottom + 8)?;
    push_ending_keys(out, bottom + 8)?;
    push_line_keys(out, bottom + 24)?;
    let spot = Point {
        x: 12,
        y: bottom + 54,
    };
    push_text(out, b"c", spot, remark)
}

/// Draws entries as SVG: `shown` of them are rows, and `later` rows follow.
pub fn draw_svg(
    alloc: Global,
    report: &[u8],
    entries: &[DrawnEntry],
    shown: u64,
    later: u64,
) -> Result<Vec<u8>, AllocError>
    ensures { IfOk result (λ out. out.items ≡ spec.svg report.now entries.now shown later) }
{
    let sheet = sheet_of(report, entries);
    let marks = marks_of(alloc, sheet.axis)?;
    let remark = remark(alloc, shown, later)?;
    let mut out = Vec::new(alloc);
    out.extend_from_slice(preamble())?;
    push_decimal(&mut out, sheet.bottom + 60)?;
    out.extend_from_slice(styles())?;
    push_ground(&mut out, &sheet, entries)?;
    push_grid(alloc, &mut out, &sheet, marks.as_slice())?;
    push_rows(alloc, &mut out, &sheet, report, entries)?;
    push_foot(&mut out, sheet.bottom, remark.as_slice())?;
    out.extend_from_slice(b"</svg>\n")?;
    Ok(out)
}
