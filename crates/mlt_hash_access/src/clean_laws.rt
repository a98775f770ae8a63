//! What is always true of all running subtransactions at once, and which pages are clean.

ghost use Rattle.std.specs.Prelude.{ℕ, ◌≡◌, ◌≢◌, ◌≤◌, ◌<◌, ◌+◌, true, false};
ghost use Rattle.std.specs.FinMap as map;
ghost use Rattle.mlt_page.specs.Stores.{PageStore, page_at};
ghost use Rattle.mlt_page_locks.specs.LockTables.{page_count};
ghost use Rattle.mlt_hash_form.specs.Held.{Agrees, over};
ghost use Rattle.mlt_hash_access.specs.LocalStates.{IsCleanFor, MayStep, LocalState};
ghost use Rattle.mlt_hash_access.specs.PageSteps.{TouchesOnePage};
ghost use Rattle.mlt_hash_access.specs.Views.{view_of};
ghost use Rattle.mlt_hash_access.specs.Running.{AllMayStep, AllRunning, HoldsNothing, KeepsRunning, after_begin, after_close, after_end, after_roll_back, after_step, clean_of, is_open, local_of, nobody_running};

/// Each open transaction may step, and the pages as they were before all running subtransactions are clean for it.
pub fn clean_pages_are_clean_for_each()
    ensures may { (all : AllRunning) (tx : ℕ) → AllMayStep all → is_open all tx ≡ true
        → MayStep (local_of all tx) }
    ensures clean { (all : AllRunning) (tx : ℕ) → AllMayStep all
        → IsCleanFor (local_of all tx) (clean_of all) }
    ensures agrees { (all : AllRunning) (tx : ℕ) → AllMayStep all → is_open all tx ≡ true
        → Agrees (view_of (local_of all tx)).seen (clean_of all) }
{}

/// Before the first transaction begins, the pages of the store are clean.
pub fn nobody_runs_at_first()
    ensures may { (max_open : ℕ) (store : PageStore) → AllMayStep (nobody_running max_open store) }
    ensures clean { (max_open : ℕ) (store : PageStore)
        → clean_of (nobody_running max_open store) ≡ page_at store.pages }
{}

/// A step of one transaction on one page leaves the clean pages and the views of all others.
pub fn step_leaves_clean_pages()
    ensures keeps { (all : AllRunning) (tx : ℕ) (new : LocalState) → AllMayStep all
        → is_open all tx ≡ true → TouchesOnePage (local_of all tx) new
        → page_count new.locks tx ≤ 300 → KeepsRunning tx all (after_step all new) }
    ensures clean { (all : AllRunning) (tx : ℕ) (new : LocalState) → AllMayStep all
        → is_open all tx ≡ true → TouchesOnePage (local_of all tx) new
        → clean_of (after_step all new) ≡ clean_of all }
{}

/// A step makes the transaction hold at most one page more.
pub fn step_adds_one_page_at_most()
    ensures { (old new : LocalState) → TouchesOnePage old new
        → page_count new.locks old.running.tx ≤ page_count old.locks old.running.tx + 1 }
{}

/// The end of a subtransaction makes just the pages clean that it has written, and leaves the views of all others.
pub fn end_makes_written_pages_clean()
    ensures keeps { (all : AllRunning) (tx : ℕ) → AllMayStep all → is_open all tx ≡ true
        → KeepsRunning tx all (after_end all tx) }
    ensures nothing { (all : AllRunning) (tx : ℕ) → HoldsNothing (after_end all tx) tx }
    ensures clean { (all : AllRunning) (tx : ℕ) → AllMayStep all
        → clean_of (after_end all tx) ≡ over (clean_of all) (view_of (local_of all tx)).own }
    ensures agrees { (all : AllRunning) (tx u : ℕ) → AllMayStep all → is_open all tx ≡ true
        → is_open all u ≡ true → u ≢ tx
        → Agrees (view_of (local_of all u)).seen (clean_of (after_end all tx)) }
{}

/// A roll back changes no clean page, and leaves the views of all others.
pub fn roll_back_leaves_clean_pages()
    ensures keeps { (all : AllRunning) (tx : ℕ) → AllMayStep all → is_open all tx ≡ true
        → KeepsRunning tx all (after_roll_back all tx) }
    ensures nothing { (all : AllRunning) (tx : ℕ) → HoldsNothing (after_roll_back all tx) tx }
    ensures clean { (all : AllRunning) (tx : ℕ) → AllMayStep all
        → clean_of (after_roll_back all tx) ≡ clean_of all }
{}

/// A transaction that begins, where one more may be open, changes no clean page and no view.
pub fn begin_leaves_clean_pages()
    ensures keeps { (all : AllRunning) (tx : ℕ) → AllMayStep all
        → map.len all.images < all.locks.max_open → KeepsRunning tx all (after_begin all tx) }
    ensures nothing { (all : AllRunning) (tx : ℕ) → AllMayStep all → is_open all tx ≡ false
        → HoldsNothing (after_begin all tx) tx }
    ensures clean { (all : AllRunning) (tx : ℕ) → AllMayStep all → is_open all tx ≡ false
        → clean_of (after_begin all tx) ≡ clean_of all }
{}

/// Nor does one that closes and holds no page.
pub fn close_leaves_clean_pages()
    ensures keeps { (all : AllRunning) (tx : ℕ) → AllMayStep all → HoldsNothing all tx
        → KeepsRunning tx all (after_close all tx) }
    ensures clean { (all : AllRunning) (tx : ℕ) → AllMayStep all → HoldsNothing all tx
        → clean_of (after_close all tx) ≡ clean_of all }
{}
