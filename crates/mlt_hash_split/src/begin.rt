//! The beginning of a split.

ghost use Rattle.std.specs.Prelude.{◌≡◌, ◌<◌, ◌+◌, ◌⊎◌, ◌↔◌, Err, IfErr, IfOk, OnErr, Option, Some, ℕ};
ghost use Rattle.std.specs.FinMap as map;
ghost use Rattle.mlt_types.specs.declared.mode.Mode.TheVariants.{Exclusive};
ghost use Rattle.mlt_page.specs.Values.{BucketFields, HeadFields};
ghost use Rattle.mlt_page.specs.declared.page.Page.{Page};
ghost use Rattle.mlt_hash_access.specs.LocalStates.{HasFileOver, MayStep, local};
ghost use Rattle.mlt_hash_access.specs.PageSteps.{HasNoPageLeft, Leaves, MakesLockedPage};
ghost use Rattle.mlt_hash_access.specs.Views.{HasWritten, view_of, view_over};
ghost use Rattle.mlt_page.specs.declared.page.Page.TheVariants as page;
ghost use Rattle.mlt_hash_split.specs.Rests.{SplitTarget, IsAtRest, target_by, held_page};
ghost use Rattle.mlt_hash_split.specs.Splits.{HasHalves, IsUnderWay, MayBegin, directory_steps, steps_left};

use crate::environment::Environment;
use crate::phase::SplitPhase;
use crate::split::Split;
use mlt_hash_access::{LockedStore, make_page, read_held_bucket, read_held_head};
use mlt_page::{Bucket, DirPage, HeadPage, Page};
use mlt_page_subtx::Subtx;
use mlt_types::{Key, PageNo, Pseudo, Refusal};

impl Split {
    /// Begins to split the bucket on page `old`, to which the key leads: makes the page of the new bucket. The bucket is
    /// less deep than a depth at which the key finds room.
    ///
    /// # Errors
    /// `NoRoom` exactly where the store has as many pages as it may have; else `OutOfMemory`, where a growth was
    /// refused. Then nothing has changed.
    pub fn begin<P: Pseudo>(
        environment: &Environment<P>,
        key: Key,
        old: PageNo,
        subtx: &mut Subtx,
        pages: &mut LockedStore,
    ) -> Result<Split, Refusal>
        ghost target: { SplitTarget }
        requires target { target ≡ target_by P.bits_of environment.now key subtx.old.tx
            target.room_depth
            target.before target.held_before }
        requires may { MayStep (local subtx.old pages.old) }
        requires written { HasWritten target.before (view_of (local subtx.old pages.old)) }
        requires file { HasFileOver target.bits target.root target.before
            (local subtx.old pages.old) }
        requires begins { MayBegin target (view_over target.before (local subtx.old pages.old))
            old }
        ensures makes { IfOk result (λ split. (page : Page)
            × MakesLockedPage (local subtx.old pages.old) (local subtx.new pages.new)
            split.new_page page) }
        ensures halves { IfOk result (λ split. (bucket : BucketFields)
            → held_page (view_over target.before (local subtx.old pages.old)) old
            ≡ Some (page.Bucket bucket)
            → HasHalves target pages.new.store.pages bucket split) }
        ensures under_way { IfOk result (λ split.
            IsUnderWay target (view_over target.before (local subtx.new pages.new)) split) }
        ensures steps { IfOk result (λ split.
            steps_left split ≡ 1 + directory_steps split.depth split.directory_depth) }
        ensures depths { IfOk result (λ split. (header : HeadFields) (bucket : BucketFields)
            → IsAtRest target (view_over target.before (local subtx.old pages.old)) old header
            bucket
            → (split.depth ≡ bucket.depth) × (split.directory_depth ≡ header.depth)) }
        ensures leaves { Leaves (local subtx.old pages.old) (local subtx.new pages.new) }
        ensures err { OnErr result ((subtx.new ≡ subtx.old) × (pages.new ≡ pages.old)) }
        ensures no_room { (result ≡ Err Refusal.NoRoom) ↔ HasNoPageLeft pages.old.store }
        ensures refusal { IfErr result (λ refusal.
            (refusal ≡ Refusal.NoRoom) ⊎ (refusal ≡ Refusal.OutOfMemory)) }
    {
        let header = read_held_head(subtx, pages, environment.root.page);
        let directory_depth = header.depth;
        let made = HeadPage {
            depth: directory_depth + 1,
            dirs: header.dirs,
        };
        let bucket = read_held_bucket(subtx, pages, old);
        let depth = bucket.depth;
        let (zeros, ones) = bucket.part(depth, &environment.root.pseudo, environment.active);
        let new = make_page(subtx, pages, Page::Bucket(ones))?;
        Ok(Split {
            seed: environment.root.pseudo.bits(&key),
            old_page: old,
            new_page: new,
            depth,
            directory_depth,
            zeros,
            made,
            second: DirPage::new(new),
            phase: SplitPhase::OldBucket,
        })
    }
}
