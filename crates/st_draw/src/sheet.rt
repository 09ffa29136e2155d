//! The sheet on which the rows of an SVG chart are drawn: its axis, its horizontal extent and its
//! height, in units of the drawing, 640 across. docs/chart.md describes the chart. drawing.rt makes
//! the sheet and takes positions on it; frame.rt draws on it; no other module uses the sheet.
//!
//! Proved: the sheet is `sheet` of specs/Drawing.antt, positions are `x_of` there; the clause
//! `good` bounds positions (`IsSheet`).
//!
//! Pinned, by these definitions, docs/chart.md and the files .svg of vectors/pictures: a character
//! takes 7 units, a row 16, the first row begins at 36, as drawing.rt has it; at most 40 characters
//! of a card, by CARD_LIMIT of `st_entries`. Free: the bodies.
ghost use Rattle.std.specs.Prelude.{◌≡◌, ◌≤◌};
ghost use Rattle.st_draw.specs.Drawing as spec;
ghost use Rattle.st_draw.specs.Drawing.{IsSheet};

use crate::axis::{Axis, Room, at, axis_of};
use st_entries::{DrawnEntry, widest};

/// The dimensions that all rows of a chart share.
#[derive(Clone, Copy)]
pub struct Sheet {
    /// The horizontal extent of the axis.
    pub room: Room,
    /// The shown ticks.
    pub axis: Axis,
    /// The y of the lower end of the rows.
    pub bottom: u128,
}

// The extent of the axis to the right of cards with this number of characters.
fn room_behind(characters: u16) -> Room
    requires { characters ≤ 40 }
    ensures { result ≡ spec.room_behind characters }
{
    Room {
        left: 124 + 7 * characters,
        width: 504 - 7 * characters,
    }
}

/// The sheet of entries.
pub fn sheet_of(report: &[u8], entries: &[DrawnEntry]) -> Sheet
    ensures value { result ≡ spec.sheet report.now entries.now }
    ensures good { IsSheet result }
{
    Sheet {
        room: room_behind(widest(report, entries) as u16),
        axis: axis_of(entries, 1),
        bottom: 36 + 16 * entries.len() as u128,
    }
}

/// The x of a tick on a sheet.
pub fn across(sheet: &Sheet, tick: u64) -> u128
    requires { IsSheet sheet.now }
    ensures { result ≡ spec.x_of sheet.now tick }
{
    u128::from(at(sheet.room, sheet.axis, tick))
}
