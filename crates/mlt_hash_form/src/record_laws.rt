//! The records of a file as one finite map, and what the changes of the file do to it.

ghost use Rattle.std.specs.Prelude.{ℕ, ◌≡◌, Option, None, Some};
ghost use Rattle.std.specs.Ordering.{nat_cmp};
ghost use Rattle.std.specs.FinMap as map;
ghost use Rattle.std.specs.FinSet as set;
ghost use Rattle.mlt_types.specs.Maps.{with_entry};
ghost use Rattle.mlt_page.specs.declared.page.Page.{Page};
ghost use Rattle.mlt_page.specs.declared.slot.Slot.{Slot};
ghost use Rattle.mlt_hash_form.specs.Changes.{ChangesRecord, IsOpening, IsSplit, slot_change};
ghost use Rattle.mlt_hash_form.specs.File.{FilePages, GivesPseudokeys, HasForm, look_up};
ghost use Rattle.mlt_hash_form.specs.Held.{Agrees, ChangesFile, SeenPages, over};
ghost use Rattle.mlt_hash_form.specs.Records.{IsRecordMap, live_records};

/// The records of a file are those of one finite map, which its live slots make.
pub fn records_are_a_map()
    ensures { (bits : ℕ → ℕ) (pages : map.FinMap nat_cmp Page) (root : ℕ)
        → GivesPseudokeys bits → HasForm bits (map.get pages) root
        → IsRecordMap (live_records pages) (map.get pages) }
{}

/// The look-up of a key in the file is that of the map.
pub fn look_up_is_the_map()
    ensures { (bits : ℕ → ℕ) (pages : map.FinMap nat_cmp Page) (root : ℕ)
        → GivesPseudokeys bits → HasForm bits (map.get pages) root
        → (key : ℕ) → map.get (live_records pages) key ≡ look_up bits (map.get pages) root key }
{}

/// A change that gives a key a value is an insertion into the map.
pub fn change_to_a_value_inserts()
    ensures { (bits : ℕ → ℕ) (pages pages' : map.FinMap nat_cmp Page) (root key value n i : ℕ)
        (after : Slot)
        → GivesPseudokeys bits → HasForm bits (map.get pages) root
        → ChangesRecord bits (map.get pages) (map.get pages') root
        (slot_change key (Some value) n i after)
        → live_records pages' ≡ map.insert (live_records pages) key value }
{}

/// A change that leaves a key no value is a removal from the map.
pub fn change_to_no_value_removes()
    ensures { (bits : ℕ → ℕ) (pages pages' : map.FinMap nat_cmp Page) (root key n i : ℕ)
        (after : Slot)
        → GivesPseudokeys bits → HasForm bits (map.get pages) root
        → ChangesRecord bits (map.get pages) (map.get pages') root (slot_change key None n i after)
        → live_records pages' ≡ map.remove (live_records pages) key }
{}

/// Where a walk that changed the file ends, what it wrote becomes clean: the pages have the form, and the map of
/// their records changes at the walk's key alone.
pub fn changed_file_changes_the_map()
    ensures { (bits : ℕ → ℕ) (active : set.FinSet nat_cmp) (root key n i : ℕ) (value : Option ℕ)
        (after : Slot) (seen : SeenPages) (rest own : FilePages)
        (pages pages' : map.FinMap nat_cmp Page)
        → ChangesFile bits active root seen rest own (slot_change key value n i after)
        → Agrees seen (map.get pages) → GivesPseudokeys bits → HasForm bits (map.get pages) root
        → ((q : ℕ) → map.get pages' q ≡ over (map.get pages) own q)
        → HasForm bits (map.get pages') root
        × (live_records pages' ≡ with_entry (live_records pages) key value) }
{}

/// A file as it is opened has no record.
pub fn opening_file_has_the_empty_map()
    ensures { (pages : map.FinMap nat_cmp Page) (root dir bucket : ℕ)
        → IsOpening (map.get pages) root dir bucket → live_records pages ≡ map.empty }
{}

/// A split leaves the map as it is.
pub fn split_leaves_the_map()
    ensures { (bits : ℕ → ℕ) (active : set.FinSet nat_cmp) (pages pages' : map.FinMap nat_cmp Page)
        (root n new : ℕ)
        → GivesPseudokeys bits → HasForm bits (map.get pages) root
        → IsSplit bits active (map.get pages) (map.get pages') root n new
        → live_records pages' ≡ live_records pages }
{}
