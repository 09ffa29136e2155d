//! Object texts: writes a program as text in the format of docs/object-text.md, and reads it back.
//! `st_top` calls `read_object` for the commands `load` and `disassemble`, and `write_object` for
//! `assemble`.
//!
//! Proved: by laws in specs/Laws.antt each text is the object text of exactly one program, or has
//! exactly one bad line (`TextsAreReadAsOne`, `RefusedTextsHaveABadLine`), and a text that is
//! written is read back (`WrittenTextsAreReadBack`).
//!
//! Pinned, by docs/CLAIMS.md, docs/promises.txt, docs/object-text.md and vectors/objects.txt: the
//! two calls with their clauses, and the texts; by `st_top`: `Image` and `ObjectError`. Free: the
//! modules are private, and their split can change.
#![tactic(auto, using(st_bits::specs::Storage::words_of_storage_is), unfolding( //
crate::specs::Draft::draft_with_value, //
crate::specs::Draft::has_place, //
crate::specs::Draft::is_whole, //
crate::specs::Lines::line_text, //
crate::specs::Object::read_text //
))]

mod drafts;
mod images;
mod items;
mod meaning;
mod order;
mod reading;
mod spelling;
mod writing;

pub use images::Image;
pub use reading::{ObjectError, read_object};
pub use writing::write_object;
