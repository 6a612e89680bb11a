//! What a visit of one session does to a chunk, and to what its open transaction keeps: it reads, or it prunes and
//! then writes, or it stamps or undoes what was written. And how a SELECT is run: what its visits gather of chunks, and
//! what is told of that.
#![tactic(auto)]

mod gathering;
mod parts;
mod pruning;
mod reader;
mod reading;
mod sparing;
mod writing;

pub use gathering::{
    Found, Fresh, add_piece, found_with, gather_part, keep_keys, keep_shares, keep_sum, part_rows,
};
pub use parts::PartRows;
pub use pruning::{stamp_visit, undo_visit};
pub use reader::{Reader, Told, reader_of};
pub use sparing::{AskedKey, asked_key};
pub use writing::{
    Writer, back_visit, check_visit, is_passed, notes_of_a_chunk_stand, notes_of_a_chunk_tell,
    place_visit, write_visit,
};
