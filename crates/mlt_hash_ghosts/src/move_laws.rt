//! What splits do to the ghosts of open transactions.

ghost use Rattle.std.specs.Prelude.{ℕ, ◌≡◌, Bool, true};
ghost use Rattle.std.specs.Ordering.{nat_cmp};
ghost use Rattle.std.specs.FinSet as set;
ghost use Rattle.mlt_page.specs.Slots.{is_kept};
ghost use Rattle.mlt_page.specs.declared.slot.Slot.{Slot};
ghost use Rattle.mlt_hash_form.specs.Form.{is_used, slot_at};
ghost use Rattle.mlt_hash_form.specs.File.{FilePages, HasForm, buckets_of};
ghost use Rattle.mlt_hash_form.specs.Changes.{IsSplit};
ghost use Rattle.mlt_hash_form.specs.Held.{Agrees, KeepsFile, RearrangesSlots, SeenPages, over};
ghost use Rattle.mlt_hash_ghosts.specs.Ghosts.{PagesMatchOperations};
ghost use Rattle.mlt_hash_ghosts.specs.Ledgers.{Ledger};
ghost use Rattle.mlt_hash_ghosts.specs.Moves.{MovesSlots};

/// A split of the bucket on page `n` moves slots. Those that are to stay are kept, if those of them that were in the
/// bucket had their room kept when it was split: the set of open owners may have changed since.
pub fn split_moves_slots()
    ensures { (bits : ℕ → ℕ) (active : set.FinSet nat_cmp) (stays : Slot → Bool)
        (pages pages' : FilePages) (root n new : ℕ)
        → IsSplit bits active pages pages' root n new
        → ((t : Slot) → stays t ≡ true → is_used t ≡ true)
        → ((i : ℕ) → let slot = slot_at (buckets_of pages) n i in
        stays slot ≡ true → is_kept active slot ≡ true)
        → MovesSlots bits stays pages pages' root }
{}

/// Slots that are moved twice are moved.
pub fn moves_join()
    ensures { (bits : ℕ → ℕ) (stays : Slot → Bool) (one two three : FilePages) (root : ℕ)
        → MovesSlots bits stays one two root → MovesSlots bits stays two three root
        → MovesSlots bits stays one three root }
{}

/// What a walk rearranged is moved: records and ghosts of open owners stay.
pub fn rearranged_slots_are_moved()
    ensures { (bits : ℕ → ℕ) (active : set.FinSet nat_cmp) (seen : SeenPages)
        (before after : FilePages) (root : ℕ)
        → RearrangesSlots bits active seen before after root
        → MovesSlots bits (is_kept active) before after root }
{}

/// What a walk wrote before its change of a record, by splits, keeps the ghosts.
pub fn kept_file_keeps_ghosts()
    ensures { (ledger : Ledger) (seen : SeenPages) (rest : FilePages)
        → PagesMatchOperations ledger → HasForm ledger.bits ledger.pages ledger.root
        → Agrees seen ledger.pages → KeepsFile ledger.bits ledger.active ledger.root seen rest
        → PagesMatchOperations (record ledger { pages = over ledger.pages rest }) }
{}

/// Pages that are the same, number by number, have the same ghosts.
pub fn same_pages_keep_ghosts()
    ensures { (ledger : Ledger) (pages : FilePages)
        → PagesMatchOperations ledger → ((n : ℕ) → pages n ≡ ledger.pages n)
        → PagesMatchOperations (record ledger { pages = pages }) }
{}

/// A ghost goes where its key goes: to move slots keeps the ghosts, where records and ghosts of open owners stay.
pub fn ghosts_move_with_their_keys()
    ensures { (ledger : Ledger) (pages : FilePages)
        → PagesMatchOperations ledger
        → MovesSlots ledger.bits (is_kept ledger.active) ledger.pages pages ledger.root
        → PagesMatchOperations (record ledger { pages = pages }) }
{}
