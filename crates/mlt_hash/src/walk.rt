//! Walks.

ghost use Rattle.std.specs.Prelude.{◌≡◌, ◌≤◌, ◌↔◌, ℕ, IsTrue, Option, None};
ghost use Rattle.std.specs.FinMap as map;
ghost use Rattle.mlt_hash_access.specs.LocalStates.{local};
ghost use Rattle.mlt_hash_access.specs.PageSteps.{HasNoPageLeft, Leaves};
ghost use Rattle.mlt_hash.specs.Passes.{next_of};
ghost use Rattle.mlt_hash.specs.Walks.{WalkContext, MayWalk, context_in, one_key};
ghost use Rattle.mlt_hash.specs.Changes.{page_of};
ghost use Rattle.mlt_hash.specs.Splitting.{HasToMake, IsUnderWay, TellsAt};
ghost use Rattle.mlt_hash.specs.Steps.{LocksIfFound};

use crate::adding::{add_or_split, go_on_splitting};
use crate::answer::WalkAnswer;
use crate::pass::{Pass, Phase};
use crate::path::{read_bucket, read_directory, read_header};
use mlt_hash_access::LockedStore;
use mlt_hash_split::{Environment, Split};
use mlt_page_subtx::Subtx;
use mlt_types::{Key, Mode, Pseudo, Refusal};
use std::alloc::Global;
use std::marker::Model;

/// A walk of a transaction to the bucket of a key, where it may make one change.
#[derive(Drop)]
pub struct Walk {
    pub(crate) alloc: Global,
    pub(crate) key: Key,
    pub(crate) mode: Mode,
    pub(crate) pass: Pass,
    pub(crate) phase: Phase,
    /// The split that is under way: a few pages, which no walk needs that splits nothing.
    pub(crate) split: Option<Box<Split>>,
}

impl Model for Walk {
    ghost use Rattle.std.specs.Prelude.{option_map};
    ghost use Rattle.mlt_hash.specs.Walks.{WalkFields};

    ghost Value = { WalkFields };

    ghost view = { λ walk. record {
      key = walk.key;
      mode = walk.mode;
      pass = walk.pass;
      phase = walk.phase;
      split = option_map (λ split. split.value) walk.split;
    } };
}

impl Walk {
    /// A first pass to a key, whose bucket is then locked in this mode. Only a split takes memory.
    pub fn find(alloc: Global, key: Key, mode: Mode) -> Walk
        ensures { result ≡ record {
          key = key;
          mode = mode;
          pass = Pass.First;
          phase = Phase.Start;
          split = None;
        } }
    {
        Walk {
            alloc,
            key,
            mode,
            pass: Pass::First,
            phase: Phase::Start,
            split: None,
        }
    }

    /// A wide pass to a key, which may go on to another key once it has changed the record of the first. Only a split takes
    /// memory, and a third page that is written.
    pub fn wide(alloc: Global, key: Key) -> Walk
        ensures { result ≡ record {
          key = key;
          mode = Mode.Exclusive;
          pass = Pass.Wide;
          phase = Phase.Start;
          split = None;
        } }
    {
        Walk {
            alloc,
            key,
            mode: Mode::Exclusive,
            pass: Pass::Wide,
            phase: Phase::Start,
            split: None,
        }
    }

    /// Whether it is in its first pass, which splits nothing.
    pub fn is_first(&self) -> bool
        ensures { IsTrue result ↔ (self.now.pass ≡ Pass.First) }
    {
        matches!(self.pass, Pass::First)
    }

    /// Starts the pass that follows one whose bucket had no room, once that one was rolled back.
    pub fn again(&mut self)
        requires { self.old.phase ≡ Phase.Full (next_of self.old.phase) }
        ensures { self.new ≡ record self.old {
          pass = next_of self.old.phase;
          phase = Phase.Start;
          split = None;
        } }
    {
        match self.phase {
            Phase::Full(next) => {
                self.pass = next;
                self.phase = Phase::Start;
                self.split = None;
            }
            _ => unreachable!(),
        }
    }

    /// One step: on the way to the bucket it locks a page and reads it; where the bucket had no room it splits the bucket,
    /// one page written or made, until there is room, and puts the record. The ghost is what the walk goes by.
    #[inline(always)]
    pub fn advance<P: Pseudo>(
        &mut self,
        environment: &Environment<P>,
        subtx: &mut Subtx,
        pages: &mut LockedStore,
    ) -> WalkAnswer
        ghost context: { WalkContext }
        requires context { context_in P.bits_of environment.now subtx.old.tx ≡ one_key context }
        requires under_way { IsUnderWay self.old.phase }
        requires ready { MayWalk context (local subtx.old pages.old) self.old }
        ensures leaves { Leaves (local subtx.old pages.old) (local subtx.new pages.new) }
        ensures locks { LocksIfFound (local subtx.old pages.old) (local subtx.new pages.new)
            (page_of self.new.phase) result }
        ensures no_room { (result ≡ WalkAnswer.Refused Refusal.NoRoom)
            ↔ (HasToMake self.old.phase context (local subtx.old pages.old) self.old
            × HasNoPageLeft pages.old.store) }
        ensures tells { TellsAt self.old.phase context
            (local subtx.old pages.old) (local subtx.new pages.new) self.old self.new result }
    {
        // A copy: matched in place, what the arms take of the walk is not proved.
        let phase = self.phase;
        match phase {
            Phase::Start => read_header(self, environment.root, subtx, pages),
            Phase::Headed {
                dir,
                row,
                directory_depth,
            } => read_directory(
                self,
                dir,
                row,
                directory_depth,
                environment.root,
                subtx,
                pages,
            ),
            Phase::Placed(bucket, depth) => {
                read_bucket(self, bucket, depth, environment.root, subtx, pages)
            }
            Phase::Adding {
                value,
                bucket,
                room_depth,
                unsplit,
            } => {
                add_or_split(
                    self,
                    value,
                    bucket,
                    room_depth,
                    unsplit,
                    environment,
                    subtx,
                    pages,
                )
            }
            Phase::Splitting(value, depth) => {
                go_on_splitting(self, value, depth, environment, subtx, pages)
            }
            Phase::AtBucket { .. } | Phase::Full(_) | Phase::Changed(_, _) => unreachable!(),
        }
    }
}
