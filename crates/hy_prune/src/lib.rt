//! What pruning does with a chain of versions, by the starts that were open when a transaction began.
//!
//! Eager pruning of version chains against the active starts is Steam's (Böttcher, Leis, Neumann, Kemper,
//! "Scalable Garbage Collection for In-Memory MVCC Systems", PVLDB 2019). The groups and the merge are this
//! project's own: of the records between two neighbouring starts no viewer ever stops between them, so they
//! become one.
#![tactic(auto)]

ghost use Rattle.std.specs.Prelude.{◌≡◌, Some};
ghost use Rattle.hy_prune.specs.Fates.{fate_of, is_same_group, watermark_of};

mod active;
mod starts;

pub use active::Active;
pub use starts::Starts;

/// The starts that were open when a transaction had begun, its own among them, and the time that the
/// clock would have given next.
#[derive(Drop)]
pub struct Cover {
    /// The open starts, ascending.
    pub starts: Starts,
    /// The next time.
    pub next: u64,
}

/// What becomes of a record of a chain.
#[derive(Clone, Copy, Debug, PartialEq, Eq)]
pub enum Fate {
    /// It stays.
    Keep,
    /// It becomes a part of the next newer record that stays.
    Merge,
    /// It goes.
    Drop,
}

/// Whether a record of this time is of the group of a newer one that stays.
fn is_in_group(newer: u64, time: u64, cover: &Cover) -> bool
    ensures { result ≡ is_same_group cover.now (Some newer) time }
{
    newer < cover.next && cover.starts.count_below(newer) == cover.starts.count_below(time)
}

/// The fate of a record of this time, behind a record of the chain that stays and has the time `kept`, if
/// there is one. A chain that lies in no array is pruned with it, record by record.
pub fn fate_behind(kept: Option<u64>, time: u64, cover: &Cover) -> Fate
    ensures { result ≡ fate_of cover.now kept time }
{
    if cover.next <= time {
        return Fate::Keep;
    }
    if !cover.starts.has_below(time) {
        return Fate::Drop;
    }
    match kept {
        Some(newer) if is_in_group(newer, time, cover) => Fate::Merge,
        _ => Fate::Keep,
    }
}

/// The watermark: the least open start, or the next time where none is open. What is older is seen alike by
/// every viewer.
pub fn watermark(cover: &Cover) -> u64
    ensures { result ≡ watermark_of cover.now }
{
    cover
        .starts
        .as_slice()
        .first()
        .copied()
        .unwrap_or(cover.next)
}
