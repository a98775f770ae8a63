//! Outcomes that are counted, and that nobody keeps.

ghost use Rattle.std.specs.Prelude.{◌≡◌, ◌-◌, ◌^◌, ◌<◌, ◌↔◌, [], IsTrue, length, min};
ghost use Rattle.mlt_serve_session.specs.Tallies.{commits_by, commits_told};

use crate::receipts::{EndedTx, Receipts};
use mlt_object_kinds::Done;
use mlt_script_serial::{End, Outcome};
use mlt_types::GhostList;
use std::alloc::{AllocError, Global};
use std::mem;

/// Who takes outcomes, counts them and keeps none: only clauses know which there were. It takes no memory.
#[derive(Drop)]
pub struct Tally {
    /// How many outcomes there were, one for each transaction that was told begun; it stays at 2^64 - 1.
    pub begun: u64,
    /// How many of them were commits; it stays at 2^64 - 1.
    pub commits: u64,
    /// The outcomes, for clauses alone.
    pub told: GhostList<Outcome>,
    ghost begun_are: { begun ≡ min (length told.items) (2 ^ 64 - 1) },
    ghost commits_are: { commits ≡ min (commits_told told.items) (2 ^ 64 - 1) },
}

impl Tally {
    /// Whether it has counted so many outcomes, and so many commits, each below 2^64 - 1, where a count stays.
    pub fn has_counted(&self, begun: u64, commits: u64) -> bool
        ensures { let told = self.now.told.items in
            IsTrue result ↔ (length told < 2 ^ 64 - 1) × (length told ≡ begun)
            × (commits_told told < 2 ^ 64 - 1) × (commits_told told ≡ commits) }
    {
        is_count(self.begun, begun) && is_count(self.commits, commits)
    }
}

/// Counts, and keeps nothing.
impl Receipts for Tally {
    ghost receipts = { λ tally. tally.told.items };

    ghost room = { λ _. 1 };

    fn none(_alloc: Global) -> Tally {
        Tally {
            begun: 0,
            commits: 0,
            told: GhostList::of(&(), &()),
        }
    }

    fn make_room(&mut self) -> Result<(), AllocError> {
        Ok(())
    }

    fn put(&mut self, alloc: Global, ended: EndedTx, done: &mut Vec<Done>) {
        self.begun = self.begun.saturating_add(1);
        self.commits = self.commits.saturating_add(commits_by(ended.end));
        let outcome = ended.outcome(mem::replace(done, Vec::new(alloc)));
        self.told = GhostList::of(&self.told, &outcome);
    }

    fn take_in(&mut self, more: Tally) -> Result<(), AllocError> {
        self.begun = self.begun.saturating_add(more.begun);
        self.commits = self.commits.saturating_add(more.commits);
        self.told = GhostList::of(&self.told, &more.told);
        Ok(())
    }
}

/// 1 for a commit.
fn commits_by(end: End) -> u64
    ensures { result ≡ commits_by end }
{
    match end {
        End::Committed(_) => 1,
        End::Aborted | End::Refused(_) => 0,
    }
}

/// Whether a count that stays at 2^64 - 1 has not come so far, and is this number.
fn is_count(count: u64, number: u64) -> bool
    ensures { IsTrue result ↔ (count < 2 ^ 64 - 1) × (count ≡ number) }
{
    count < u64::MAX && count == number
}
