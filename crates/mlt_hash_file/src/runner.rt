//! A transaction that runs alone.

ghost use Rattle.std.specs.Prelude.{◌≡◌, ◌≢◌, ◌≤◌, ◌<◌, ◌+◌, ℕ, Some};
ghost use Rattle.mlt_types.specs.declared.mode.Mode.{Mode};
ghost use Rattle.mlt_page.specs.Stores.{page_at};
ghost use Rattle.mlt_hash_form.specs.File.{look_up};
ghost use Rattle.mlt_hash_access.specs.Views.{HasWritten, view_of, view_over};
ghost use Rattle.mlt_hash.specs.Walks.{Before, IsAtStart, nothing_before};
ghost use Rattle.mlt_hash.specs.Splitting.{IsUnderWay, TellsAt};
ghost use Rattle.mlt_hash.specs.Changes.{IsAtAbsent, IsAtRecord};
ghost use Rattle.mlt_hash.specs.Steps.{steps_to_bucket};
ghost use Rattle.mlt_hash.specs.StepsLeft.{IsPutting, steps_to_put};
ghost use Rattle.mlt_hash_file.specs.Alone.{HasNotWaited, IsAlone, IsIdle, KeepsBefore, context_alone};
ghost use Rattle.mlt_hash_file.specs.AloneWalks.{HasArrived, IsAbsentBefore, IsFileBefore, IsReadySince, TellsOfMaking, TellsOfInsertion, TellsOfLater, TellsOfPass, TellsOfSplits, added_value};
ghost use Rattle.mlt_hash.specs.Passes.{next_of};
ghost use Rattle.mlt_hash_file.specs.SplitPages.{pages_in_the_end};
ghost use Rattle.mlt_hash.specs.declared.pass.Pass.{Pass};
ghost use Rattle.mlt_hash.specs.declared.pass.Phase.{Phase};

use mlt_hash::{Environment, Walk, WalkAnswer};
use mlt_hash_access::LockedStore;
use mlt_hash_form::Root;
use mlt_page::Store;
use mlt_page_subtx::Subtx;
use mlt_types::{OpenSet, Pseudo, Value};
use std::marker::Model;

/// The one transaction that works on a store, and what it holds there. A contract sees the state. No other transaction
/// holds a page, so no walk of it waits; and none is open, so no ghost keeps its room.
#[derive(Drop)]
pub(crate) struct Runner {
    pub(crate) subtx: Subtx,
    pub(crate) pages: LockedStore,
    /// Nobody: no ghost keeps its room.
    pub(crate) active: OpenSet,
}

impl Model for Runner {
    ghost use Rattle.std.specs.Prelude.{◌≡◌};
    ghost use Rattle.std.specs.FinSet as set;
    ghost use Rattle.mlt_hash_access.specs.LocalStates.{LocalState, local};
    ghost use Rattle.mlt_hash_file.specs.Alone.{IsAlone, coded_local};

    ghost Value = { LocalState };

    ghost coded = { coded_local };

    ghost view = { λ runner. local runner.subtx runner.pages };

    ghost invariant = { λ runner. IsAlone (local runner.subtx runner.pages)
        × (runner.active ≡ set.empty) };
}

impl Runner {
    /// One step of a walk. The ghost is what the walk did before it went on to its key.
    pub(crate) fn step<P: Pseudo>(&mut self, walk: &mut Walk, root: &Root<P>) -> WalkAnswer
        ghost since: { Before }
        requires under_way { IsUnderWay walk.old.phase }
        requires ready { IsReadySince since P.bits_of root.now self.old walk.old }
        ensures keeps { KeepsBefore self.old self.new }
        ensures written { HasWritten since.written (view_of self.new) }
        ensures tells { TellsAt walk.old.phase (context_alone since P.bits_of root.now self.old)
            self.old self.new walk.old walk.new result }
        ensures goes { HasNotWaited result }
        ensures alone { IsAlone self.old × IsAlone self.new }
    {
        let environment = Environment {
            root,
            active: &self.active,
        };
        walk.advance(&environment, &mut self.subtx, &mut self.pages)
    }

    /// Goes on to the bucket of the walk's key: the value that the key has there, if it has one.
    pub(crate) fn find<P: Pseudo>(&mut self, walk: &mut Walk, root: &Root<P>) -> Option<Value>
        ghost since: { Before }
        requires on_its_way { 0 < steps_to_bucket walk.old.phase }
        requires ready { IsReadySince since P.bits_of root.now self.old walk.old }
        ensures keeps { KeepsBefore self.old self.new }
        ensures written { HasWritten since.written (view_of self.new) }
        ensures arrives { HasArrived (context_alone since P.bits_of root.now self.old)
            self.new walk.old walk.new result }
        ensures alone { IsAlone self.new }
    {
        loop {
            match self.step(walk, root) {
                WalkAnswer::Going => {}
                WalkAnswer::Found(found) => return found,
                _ => unreachable!(),
            }
        }
    }

    /// Adds a record of the walk's key, which has none in the bucket that the walk has found, if that has room.
    pub(crate) fn put<P: Pseudo>(
        &mut self,
        walk: &mut Walk,
        value: Value,
        root: &Root<P>,
    ) -> WalkAnswer
        ghost since: { Before }
        requires mode { walk.old.mode ≡ Mode.Exclusive }
        requires absent { IsAtAbsent walk.old.phase }
        requires ready { IsReadySince since P.bits_of root.now self.old walk.old }
        ensures keeps { KeepsBefore self.old self.new }
        ensures written { HasWritten since.written (view_of self.new) }
        ensures tells { TellsOfPass (context_alone since P.bits_of root.now self.old)
            self.new walk.old walk.new value result }
        ensures alone { IsAlone self.old }
    {
        let environment = Environment {
            root,
            active: &self.active,
        };
        walk.insert(value, &environment, &mut self.subtx, &mut self.pages)
    }

    /// A pass that adds a record of the walk's key, which has none, if its bucket has room.
    pub(crate) fn add<P: Pseudo>(
        &mut self,
        walk: &mut Walk,
        value: Value,
        root: &Root<P>,
    ) -> WalkAnswer
        requires start { walk.old.phase ≡ Phase.Start }
        requires mode { walk.old.mode ≡ Mode.Exclusive }
        requires nothing { IsAtStart (view_of self.old) }
        requires file { IsFileBefore P.bits_of root.now self.old }
        requires absent { IsAbsentBefore P.bits_of root.now self.old walk.old.key }
        ensures keeps { KeepsBefore self.old self.new }
        ensures tells { TellsOfPass (context_alone nothing_before P.bits_of root.now self.old)
            self.new walk.old walk.new value result }
    {
        self.find(walk, root);
        self.put(walk, value, root)
    }

    /// Rolls a pass back that found no room, and runs the one that follows.
    pub(crate) fn add_again<P: Pseudo>(
        &mut self,
        walk: &mut Walk,
        value: Value,
        root: &Root<P>,
    ) -> WalkAnswer
        requires full { walk.old.phase ≡ Phase.Full (next_of walk.old.phase) }
        requires mode { walk.old.mode ≡ Mode.Exclusive }
        requires file { IsFileBefore P.bits_of root.now self.old }
        requires absent { IsAbsentBefore P.bits_of root.now self.old walk.old.key }
        ensures keeps { KeepsBefore self.old self.new }
        ensures tells { TellsOfPass (context_alone nothing_before P.bits_of root.now self.old)
            self.new (record walk.old { pass = next_of walk.old.phase; phase = Phase.Start })
            walk.new value result }
    {
        self.roll_back();
        walk.again();
        self.add(walk, value, root)
    }

    /// Splits the bucket until there is room, and adds the record.
    pub(crate) fn split<P: Pseudo>(&mut self, walk: &mut Walk, root: &Root<P>) -> WalkAnswer
        ghost since: { Before }
        requires ready { IsReadySince since P.bits_of root.now self.old walk.old }
        requires adds { IsPutting walk.old.phase }
        ensures keeps { KeepsBefore self.old self.new }
        ensures tells { TellsOfSplits (context_alone since P.bits_of root.now self.old) self.new
            walk.old walk.new (added_value walk.old.phase)
            (pages_in_the_end root.now.page walk.old self.old) result }
    {
        loop {
            match self.step(walk, root) {
                WalkAnswer::Going => {}
                answer => return answer,
            }
        }
    }

    /// A later pass, with its splits.
    pub(crate) fn add_with_splits<P: Pseudo>(
        &mut self,
        walk: &mut Walk,
        value: Value,
        root: &Root<P>,
    ) -> WalkAnswer
        requires full { walk.old.phase ≡ Phase.Full (next_of walk.old.phase) }
        requires later { next_of walk.old.phase ≢ Pass.First }
        requires mode { walk.old.mode ≡ Mode.Exclusive }
        requires file { IsFileBefore P.bits_of root.now self.old }
        requires absent { IsAbsentBefore P.bits_of root.now self.old walk.old.key }
        ensures keeps { KeepsBefore self.old self.new }
        ensures tells { TellsOfLater (context_alone nothing_before P.bits_of root.now self.old)
            self.new (record walk.old { pass = next_of walk.old.phase; phase = Phase.Start })
            walk.new value result }
    {
        match self.add_again(walk, value, root) {
            WalkAnswer::NeedSplit => self.split(walk, root),
            answer => answer,
        }
    }

    /// The pass that follows a first one, and a wide one where a narrow one has to be wide.
    pub(crate) fn add_in_later_passes<P: Pseudo>(
        &mut self,
        walk: &mut Walk,
        value: Value,
        root: &Root<P>,
    ) -> WalkAnswer
        requires full { walk.old.phase ≡ Phase.Full (next_of walk.old.phase) }
        requires later { next_of walk.old.phase ≢ Pass.First }
        requires mode { walk.old.mode ≡ Mode.Exclusive }
        requires file { IsFileBefore P.bits_of root.now self.old }
        requires absent { IsAbsentBefore P.bits_of root.now self.old walk.old.key }
        ensures keeps { KeepsBefore self.old self.new }
        ensures tells { TellsOfInsertion (context_alone nothing_before P.bits_of root.now self.old)
            self.new walk.old.key value result }
    {
        match self.add_with_splits(walk, value, root) {
            WalkAnswer::Widen => self.add_with_splits(walk, value, root),
            answer => answer,
        }
    }

    /// Adds a record of the walk's key, which has none, in as many passes as that takes.
    pub(crate) fn insert<P: Pseudo>(
        &mut self,
        walk: &mut Walk,
        value: Value,
        root: &Root<P>,
    ) -> WalkAnswer
        requires start { (walk.old.phase ≡ Phase.Start) × (walk.old.pass ≡ Pass.First) }
        requires mode { walk.old.mode ≡ Mode.Exclusive }
        requires nothing { IsAtStart (view_of self.old) }
        requires file { IsFileBefore P.bits_of root.now self.old }
        requires absent { IsAbsentBefore P.bits_of root.now self.old walk.old.key }
        ensures keeps { KeepsBefore self.old self.new }
        ensures tells { TellsOfInsertion (context_alone nothing_before P.bits_of root.now self.old)
            self.new walk.old.key value result }
    {
        match self.add(walk, value, root) {
            WalkAnswer::NeedSplit => self.add_in_later_passes(walk, value, root),
            answer => answer,
        }
    }

    /// Gives the record of the walk's key, which the walk has found, this value, or removes it where there is none.
    pub(crate) fn set<P: Pseudo>(
        &mut self,
        walk: &mut Walk,
        value: Option<Value>,
        root: &Root<P>,
    ) -> WalkAnswer
        ghost since: { Before }
        requires mode { walk.old.mode ≡ Mode.Exclusive }
        requires found { IsAtRecord walk.old.phase }
        requires ready { IsReadySince since P.bits_of root.now self.old walk.old }
        ensures keeps { KeepsBefore self.old self.new }
        ensures tells { TellsOfMaking (context_alone since P.bits_of root.now self.old)
            self.new walk.old walk.new value result }
    {
        walk.set(value, &mut self.subtx, &mut self.pages)
    }

    /// Keeps what was written, and releases all locks.
    pub(crate) fn end(&mut self)
        ensures store { self.new.store ≡ self.old.store }
        ensures tx { self.new.running.tx ≡ self.old.running.tx }
        ensures idle { IsIdle self.new }
    {
        self.subtx.end(&mut self.pages.locks);
    }

    /// Leaves the pages as they were before, and releases all locks.
    pub(crate) fn roll_back(&mut self)
        ensures keeps { KeepsBefore self.old self.new }
        ensures idle { IsIdle self.new }
    {
        self.subtx
            .roll_back(&mut self.pages.store, &mut self.pages.locks);
    }
}
