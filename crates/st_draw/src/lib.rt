//! Draws the timetable of a report as a chart, the work of the program `chart`. docs/chart.md has
//! the rules. The `main` of `chart` calls `draw`, the one public function. `st_entries` reads
//! reports.
//!
//! Proved: the clause `answer` of `draw` says what is read and written, and the status (`IsAnswer`
//! of specs/Answers.antt); the laws `ElementsAreClosed` and `TextsStayInTheirElements`
//! (specs/Laws.antt) hold for every chart. Pinned, by docs/chart.md, docs/CLAIMS.md and `chart`:
//! `draw` with its clauses, and `Status`. Free: the private modules.
#![tactic(auto, unfolding( //
crate::specs::Answers::picture, //
crate::specs::Answers::picture_status, //
crate::specs::Axis::axis, //
crate::specs::Axis::x_of_tick, //
crate::specs::Drawing::box_key, //
crate::specs::Drawing::ground, //
crate::specs::Drawing::line_key, //
crate::specs::Drawing::notice, //
crate::specs::Drawing::preamble, //
crate::specs::Drawing::sheet, //
crate::specs::Drawing::styles, //
crate::specs::Element::attribute, //
crate::specs::Element::corner, //
crate::specs::Element::element_front, //
crate::specs::Element::ends, //
crate::specs::Element::size, //
crate::specs::Terminal::entry_line, //
crate::specs::Terminal::head, //
crate::specs::Terminal::key, //
crate::specs::Terminal::page_text, //
crate::specs::Terminal::strokes, //
crate::specs::Terminal::text_at_left, //
crate::specs::Terminal::text_at_right, //
crate::specs::Terminal::text_columns, //
crate::specs::Words::part_named, //
crate::specs::Words::picture_choice //
))]

mod attributes;
mod axis;
mod drawing;
mod element;
mod escape;
mod frame;
mod opening;
mod program;
mod sheet;
mod status;
mod terminal;
mod words;

pub use program::draw;
pub use status::Status;
