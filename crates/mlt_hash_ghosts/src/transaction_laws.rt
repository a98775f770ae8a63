//! What the beginnings and ends of transactions do to their ghosts. The pages stay as they are.

ghost use Rattle.std.specs.Prelude.{ℕ, ◌≡◌, ◌+◌, Bool, [], false};
ghost use Rattle.std.specs.FinSet as set;
ghost use Rattle.mlt_page.specs.Slots.{is_kept};
ghost use Rattle.mlt_page.specs.declared.slot.Slot.{Slot};
ghost use Rattle.mlt_page.specs.declared.slot.Slot.TheVariants.{Free, Ghost};
ghost use Rattle.mlt_hash_form.specs.Form.{slot_at};
ghost use Rattle.mlt_hash_form.specs.File.{buckets_of};
ghost use Rattle.mlt_hash_ghosts.specs.Ghosts.{GhostsAreKept, PagesMatchOperations};
ghost use Rattle.mlt_hash_ghosts.specs.Ledgers.{Ledger};
ghost use Rattle.mlt_hash_ghosts.specs.Operations.{Standing};

/// Where pages and standing operations match, the ghosts are kept.
pub fn operations_keep_ghosts()
    ensures { (ledger : Ledger) → PagesMatchOperations ledger → GhostsAreKept ledger }
{}

/// In a file of free slots they match where no transaction is open, as in a file that was just made.
pub fn file_without_ghosts()
    ensures { (ledger : Ledger)
        → ledger.active ≡ set.empty → ((n i : ℕ) → slot_at (buckets_of ledger.pages) n i ≡ Free)
        → PagesMatchOperations ledger }
{}

/// They match on when the next number is given out, to a transaction without operations.
pub fn begin_keeps_ghosts()
    ensures { (ledger : Ledger) (standing : Standing) → let new = ledger.begun + 1 in
        PagesMatchOperations ledger
        → ((key : ℕ) → standing new key ≡ [])
        → ((owner key : ℕ) → (owner ≡ new → ⊥) → standing owner key ≡ ledger.standing owner key)
        → let active = set.insert ledger.active new in
        PagesMatchOperations (record ledger { begun = new; active = active; standing = standing }) }
{}

/// And when the abort of a transaction begins.
pub fn abort_keeps_ghosts()
    ensures { (ledger : Ledger) (undoing : ℕ → Bool)
        → PagesMatchOperations ledger
        → ((owner : ℕ) → undoing owner ≡ false → ledger.undoing owner ≡ false)
        → PagesMatchOperations (record ledger { undoing = undoing }) }
{}

/// And when a transaction is closed. The room of its ghosts is then free, and that of all other slots is kept or
/// free as before.
pub fn close_frees_the_room()
    ensures { (ledger : Ledger) (standing : Standing) (owner : ℕ)
        → PagesMatchOperations ledger
        → ((t key : ℕ) → (t ≡ owner → ⊥) → standing t key ≡ ledger.standing t key)
        → let active = set.remove ledger.active owner in
        PagesMatchOperations (record ledger { active = active; standing = standing })
        × ((key value : ℕ) → is_kept active (Ghost key value owner) ≡ false)
        × ((s : Slot) → ((key value : ℕ) → s ≡ Ghost key value owner → ⊥)
        → is_kept active s ≡ is_kept ledger.active s) }
{}
