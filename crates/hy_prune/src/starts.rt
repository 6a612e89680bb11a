//! A list of start times.

ghost use Rattle.std.specs.Prelude.{◌≡◌, ◌==◌, count_by, nat_lt, not as negated};
ghost use Rattle.hy_prune.specs.OpenStarts.{Rise};

use std::marker::Model;

/// Start times, ascending. Contracts see them as a list.
#[derive(Drop, Debug)]
pub struct Starts {
    times: Vec<u64>,
    /// Whether they are known to ascend, so that they need not be counted one by one.
    ascending: bool,
}

impl Model for Starts {
    ghost use Rattle.std.specs.Prelude.{◌≡◌, ℕ, List, true};
    ghost use Rattle.std.specs.List.Sorted.{IsNonDecreasing};

    ghost Value = { List ℕ };

    ghost view = { λ a. a.times.items };

    ghost invariant = { λ a. a.ascending ≡ true → IsNonDecreasing a.times.items };
}

impl Starts {
    /// The times of a vector, without taking memory.
    pub fn from_vec(times: Vec<u64>) -> Starts
        ensures { result ≡ times.items }
    {
        let ascending = times.is_sorted();
        Starts { times, ascending }
    }

    /// Times of which each is below those behind it, without a look at them and without taking memory.
    pub fn from_rising(times: Vec<u64>) -> Starts
        requires { Rise times.items }
        ensures { result ≡ times.items }
    {
        Starts {
            times,
            ascending: true,
        }
    }

    /// The vector of the times, without taking memory.
    pub fn into_vec(self) -> Vec<u64>
        ensures { result.items ≡ self }
    {
        let Starts { times, .. } = self;
        times
    }

    /// The times, in order.
    pub fn as_slice(&self) -> &[u64]
        ensures { result.now ≡ self.now }
    {
        self.times.as_slice()
    }

    /// How many of them are below a time.
    pub fn count_below(&self, time: u64) -> usize
        ensures { result ≡ count_by (λ start. nat_lt start time) self.now }
    {
        if self.ascending {
            self.times.partition_point(|start| *start < time)
        } else {
            self.times.iter().filter(|start| **start < time).count()
        }
    }

    /// Whether one of them is below a time: where they ascend, the first one tells.
    pub fn has_below(&self, time: u64) -> bool
        ensures { result ≡ negated (count_by (λ start. nat_lt start time) self.now == 0) }
    {
        match self.times.first() {
            Some(first) if self.ascending => *first < time,
            _ => self.count_below(time) != 0,
        }
    }
}
