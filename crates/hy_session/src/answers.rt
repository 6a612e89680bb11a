//! Answers of statements, for which there is room before a chunk changes.

ghost use Rattle.std.specs.Prelude.{◌≡◌, ◌+◌, ◌<◌, ◌≤◌, ◌++◌, ◌∷◌, [], OnOk, length, vec_len, vec_capacity};
ghost use Rattle.hy_chunk.specs.Sound.{most_texts};
ghost use Rattle.hy_chunk.specs.Views.{with_places};

use hy_bound::{Records, Reply};
use hy_chunk::Chunk;
use hy_notes::Changes;
use hy_plan::ReadLog;
use std::alloc::AllocError;

/// An answer of a statement.
#[derive(Drop)]
pub struct Answer {
    /// The reply.
    pub reply: Reply,
    /// The position that it took, if it is an INSERT that took one.
    pub took: Option<u32>,
    /// The records of what it read.
    pub records: Records,
}

/// Makes room for so many records of a chunk, and as many notes of its rows, of so many values. Err is for want of memory.
pub fn reserve_writes(
    chunk: &mut Chunk,
    notes: &mut Changes,
    count: usize,
    width: u32,
) -> Result<(), AllocError>
    ensures all { chunk.new ≡ with_places chunk.old chunk.old.shown.places chunk.new.room }
    ensures notes { notes.new.notes ≡ notes.old.notes }
    ensures levels { notes.new.levels ≡ notes.old.levels }
    ensures room { OnOk result (count ≤ chunk.new.room) }
    ensures notes_room { OnOk result (count ≤ notes.new.room) }
    ensures wide { OnOk result (width ≤ notes.new.width) }
    ensures long { OnOk result (most_texts chunk.new.kinds ≤ notes.new.texts) }
{
    chunk.reserve(count)?;
    notes.reserve(count, width as usize, chunk.texts())
}

/// Makes room for an answer with so many records. Err is for want of memory.
pub fn reserve_answer(
    replies: &mut Vec<Reply>,
    took: &mut Vec<Option<u32>>,
    log: &mut ReadLog,
    records: usize,
) -> Result<(), AllocError>
    ensures replies { replies.new.items ≡ replies.old.items }
    ensures took { took.new.items ≡ took.old.items }
    ensures log { log.new.entries ≡ log.old.entries }
    ensures replies_room { OnOk result (vec_len replies.new < vec_capacity replies.new) }
    ensures took_room { OnOk result (vec_len took.new < vec_capacity took.new) }
    ensures log_room { OnOk result (records ≤ log.new.room) }
{
    replies.reserve(1)?;
    took.reserve(1)?;
    log.reserve(records)
}

/// Adds records, for which there is room.
pub fn push_records(log: &mut ReadLog, records: Records)
    requires { length records ≤ log.old.room }
    ensures { log.new.entries ≡ log.old.entries ++ records }
{
    for record in records.into_vec() {
        log.push_reserved(record);
    }
}

/// Adds an answer, for which there is room.
pub fn push_answer(
    replies: &mut Vec<Reply>,
    took: &mut Vec<Option<u32>>,
    log: &mut ReadLog,
    answer: Answer,
)
    requires replies { vec_len replies.old < vec_capacity replies.old }
    requires took { vec_len took.old < vec_capacity took.old }
    requires log { length answer.records ≤ log.old.room }
    ensures replies { replies.new.items ≡ replies.old.items ++ answer.reply ∷ [] }
    ensures took { took.new.items ≡ took.old.items ++ answer.took ∷ [] }
    ensures log { log.new.entries ≡ log.old.entries ++ answer.records }
{
    let Answer {
        reply,
        took: pos,
        records,
    } = answer;
    replies.push_reserved(reply);
    took.push_reserved(pos);
    push_records(log, records);
}
