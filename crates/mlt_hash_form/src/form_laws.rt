//! The form of the file, and what a look-up in it finds.

ghost use Rattle.std.specs.Prelude.{ℕ, List, ◌≡◌, ◌<◌, ◌≤◌, ◌^◌, ◌↔◌, Some, slice_index_or, true};
ghost use Rattle.std.specs.Ordering.{nat_cmp};
ghost use Rattle.std.specs.FinSet as set;
ghost use Rattle.mlt_page.specs.Slots.{key_of};
ghost use Rattle.mlt_page.specs.Values.{BucketFields, HeadFields};
ghost use Rattle.mlt_page.specs.declared.slot.Slot.{Slot};
ghost use Rattle.mlt_page.specs.declared.slot.Slot.TheVariants.{Free};
ghost use Rattle.mlt_hash_form.specs.Changes.{IsHome, IsOpening};
ghost use Rattle.mlt_hash_form.specs.Form.{HasSlot, is_used, slot_at, value_in};
ghost use Rattle.mlt_hash_form.specs.File.{FilePages, GivesPseudokeys, HasForm, HasRecord, IsOnceLive, IsPath, buckets_of, lead_of, look_up};
ghost use Rattle.mlt_hash_form.specs.Prefixes.{IsExtendibleHashFile};

/// Where the file has its form, its entries are those of an extendible hash file.
pub fn form_is_extendible_hashing()
    ensures { (bits : ℕ → ℕ) (active : set.FinSet nat_cmp) (pages : FilePages) (root : ℕ)
        → GivesPseudokeys bits → HasForm bits pages root
        → IsExtendibleHashFile bits active pages root }
{}

/// And the other way round, where each slot that is not free lies where its key leads: those of closed owners too.
pub fn extendible_hashing_is_the_form()
    ensures { (bits : ℕ → ℕ) (active : set.FinSet nat_cmp) (pages : FilePages) (root : ℕ)
        → IsExtendibleHashFile bits active pages root
        → ((n i : ℕ) → is_used (slot_at (buckets_of pages) n i) ≡ true
        → lead_of pages root (bits (key_of (slot_at (buckets_of pages) n i))) ≡ n)
        → HasForm bits pages root }
{}

/// In a file of the form no key has two live slots, so its records are defined.
pub fn records_are_defined()
    ensures { (bits : ℕ → ℕ) (pages : FilePages) (root : ℕ)
        → GivesPseudokeys bits → HasForm bits pages root
        → IsOnceLive pages }
{}

/// A file as it is opened has the form, and each slot of it is free.
pub fn opening_file_has_the_form()
    ensures { (bits : ℕ → ℕ) (pages : FilePages) (root dir bucket : ℕ)
        → IsOpening pages root dir bucket
        → HasForm bits pages root × ((n i : ℕ) → slot_at (buckets_of pages) n i ≡ Free) }
{}

/// Each pseudokey has a path: a header, a page of the directory that it names, and a bucket that this names.
pub fn each_pseudokey_has_a_path()
    ensures { (bits : ℕ → ℕ) (pages : FilePages) (root x : ℕ)
        → x < 2 ^ 64 → HasForm bits pages root
        → (header : HeadFields) × (dir : List ℕ) × (n : ℕ) × (bucket : BucketFields)
        × IsPath pages root x header dir n bucket }
{}

/// The path of a key leads to the bucket in which changes of the key are to be made. The bucket is no deeper than
/// the directory.
pub fn path_leads_home()
    ensures { (bits : ℕ → ℕ) (pages : FilePages) (root key : ℕ)
        (header : HeadFields) (dir : List ℕ) (n : ℕ) (bucket : BucketFields)
        → GivesPseudokeys bits → HasForm bits pages root
        → IsPath pages root (bits key) header dir n bucket
        → IsHome bits pages root key n bucket
        × ((bucket.depth ≤ header.depth) × (header.depth ≤ 16)) }
{}

/// Each record and each ghost of a key, of any owner, is in the bucket that the key leads to.
pub fn slots_of_a_key_are_in_its_bucket()
    ensures { (bits : ℕ → ℕ) (pages : FilePages) (root key : ℕ)
        (header : HeadFields) (dir : List ℕ) (n : ℕ) (bucket : BucketFields) (slot : Slot)
        → GivesPseudokeys bits → HasForm bits pages root
        → IsPath pages root (bits key) header dir n bucket
        → is_used slot ≡ true → key_of slot ≡ key
        → HasSlot (buckets_of pages) slot
        ↔ ((i : ℕ) × (slice_index_or bucket.slots i Free ≡ slot)) }
{}

/// What is read of a key through the header, a directory page and a bucket is exactly its record.
pub fn look_up_is_exact()
    ensures { (bits : ℕ → ℕ) (pages : FilePages) (root key value : ℕ)
        (header : HeadFields) (dir : List ℕ) (n : ℕ) (bucket : BucketFields)
        → HasForm bits pages root → IsPath pages root (bits key) header dir n bucket
        → HasRecord pages key value ↔ (value_in key bucket.slots ≡ Some value) }
{}

/// The look-up of a key finds exactly its record.
pub fn look_up_is_the_records()
    ensures { (bits : ℕ → ℕ) (pages : FilePages) (root key value : ℕ)
        → HasForm bits pages root
        → HasRecord pages key value ↔ (look_up bits pages root key ≡ Some value) }
{}
