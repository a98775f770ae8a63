//! A wide pass goes on to another key.

ghost use Rattle.std.specs.Prelude.{◌≡◌, ℕ, None};
ghost use Rattle.mlt_hash_access.specs.LocalStates.{local};
ghost use Rattle.mlt_hash_access.specs.Views.{view_of};
ghost use Rattle.mlt_hash.specs.Walks.{WalkContext, MayWalk, SlotsStood, context_after, before_of, nothing_before};
ghost use Rattle.mlt_hash.specs.Changes.{IsChangedPhase};
ghost use Rattle.mlt_hash.specs.declared.pass.Pass.TheVariants as pass;

use crate::pass::Phase;
use crate::walk::Walk;
use mlt_hash_access::{LockedStore, read_held_head};
use mlt_hash_form::{DirSlot, Root};
use mlt_page_subtx::Subtx;
use mlt_types::{Key, Mode, Pseudo};

impl Walk {
    /// Goes on to another key, in a wide pass that has changed the record of its first one. It is no step: the header is
    /// held, and the next step locks the directory page of that key. From now on the walk stands over what it has
    /// written, and all that it holds it keeps. The ghost is what the walk went by.
    pub fn go_on_to<P: Pseudo>(
        &mut self,
        key: Key,
        root: &Root<P>,
        subtx: &Subtx,
        pages: &LockedStore,
    )
        ghost context: { WalkContext }
        requires root { root.now.page ≡ context.root }
        requires bits { P.bits_of root.now.pseudo ≡ context.bits }
        requires first { context.before ≡ nothing_before }
        requires wide { self.old.pass ≡ pass.Wide }
        requires changed { IsChangedPhase self.old.phase }
        requires ready { MayWalk context (local subtx.now pages.now) self.old }
        ensures walk { (dir : ℕ) × (row : ℕ) × (depth : ℕ)
            × (self.new ≡ record self.old {
              key = key;
              mode = Mode.Exclusive;
              phase = Phase.Headed dir row depth;
              split = None;
            }) }
        ensures ready { let m = local subtx.now pages.now in
            MayWalk (context_after (before_of (view_of m)) context) m self.new }
        ensures stood { let m = local subtx.now pages.now in
            SlotsStood (view_of m).own context.tx (view_of m) }
    {
        let header = read_held_head(subtx, pages, root.page);
        let place = DirSlot::of(root.pseudo.bits(&key), header.depth);
        self.key = key;
        self.mode = Mode::Exclusive;
        self.phase = Phase::Headed {
            dir: header.dir(place.dir),
            row: place.entry,
            directory_depth: header.depth,
        };
        self.split = None;
    }
}
