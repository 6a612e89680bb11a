//! Rows in shares, each of which may be tallied apart from the others.

ghost use Rattle.std.specs.Prelude.{◌≡◌, ◌≤◌, min};
ghost use Rattle.hy_gathered.specs.Shares.{share_begin, share_count, share_end};

/// From so many rows on they are in shares: below, a thread takes longer to begin than it saves.
pub(crate) const SHARED_ROWS: usize = 4096;

/// How many shares they make then.
pub(crate) const MOST_SHARES: usize = 4;

/// How many shares so many rows make. None where they are few.
pub(crate) fn share_count(rows: usize) -> usize
    ensures { result ≡ share_count rows }
{
    if rows < SHARED_ROWS { 0 } else { MOST_SHARES }
}

/// Where the share of a number begins among so many rows, and where it ends.
pub(crate) fn share_run(rows: usize, number: usize) -> (usize, usize)
    ensures begin { result.0 ≡ share_begin rows number }
    ensures end { result.1 ≡ share_end rows number }
{
    let size = rows / MOST_SHARES + 1;
    let begin = number.saturating_mul(size).min(rows);
    (begin, begin.saturating_add(size).min(rows))
}
