//! What the four changes of a bucket's slot do to the file.

ghost use Rattle.std.specs.Prelude.{ℕ, ◌≡◌, None, Some, true, false};
ghost use Rattle.std.specs.Ordering.{nat_cmp};
ghost use Rattle.std.specs.FinSet as set;
ghost use Rattle.mlt_page.specs.Slots.{is_ghost_of, is_kept, is_live_of};
ghost use Rattle.mlt_page.specs.declared.slot.Slot.TheVariants.{Live, Ghost};
ghost use Rattle.mlt_hash_form.specs.Form.{value_in};
ghost use Rattle.mlt_hash_form.specs.File.{FilePages};
ghost use Rattle.mlt_hash_form.specs.Changes.{ChangesRecord, IsAtHome, Spot, WritesSpot, slot_of, slot_change};

/// To put an absent key into a slot of its bucket that is not kept adds its record, and changes nothing else.
pub fn put_adds_the_record()
    ensures { (bits : ℕ → ℕ) (active : set.FinSet nat_cmp) (pages pages' : FilePages)
        (root key value : ℕ) (spot : Spot)
        → IsAtHome bits pages root key spot → value_in key spot.bucket.slots ≡ None
        → is_kept active (slot_of spot) ≡ false → WritesSpot pages pages' spot (Live key value)
        → ChangesRecord bits pages pages' root
        (slot_change key (Some value) spot.number spot.at (Live key value)) }
{}

/// To give the record in a slot another value changes that record, and nothing else.
pub fn set_value_changes_the_record()
    ensures { (bits : ℕ → ℕ) (pages pages' : FilePages) (root key value : ℕ) (spot : Spot)
        → IsAtHome bits pages root key spot
        → is_live_of key (slot_of spot) ≡ true → WritesSpot pages pages' spot (Live key value)
        → ChangesRecord bits pages pages' root
        (slot_change key (Some value) spot.number spot.at (Live key value)) }
{}

/// To make the record in a slot a ghost removes that record, and changes nothing else.
pub fn to_ghost_removes_the_record()
    ensures { (bits : ℕ → ℕ) (pages pages' : FilePages) (root key owner : ℕ) (spot : Spot)
        → IsAtHome bits pages root key spot
        → is_live_of key (slot_of spot) ≡ true → WritesSpot pages pages' spot (Ghost key 0 owner)
        → ChangesRecord bits pages pages' root
        (slot_change key None spot.number spot.at (Ghost key 0 owner)) }
{}

/// To revive the ghost of an absent key adds its record, and changes nothing else.
pub fn revive_adds_the_record()
    ensures { (bits : ℕ → ℕ) (pages pages' : FilePages) (root key owner value : ℕ) (spot : Spot)
        → IsAtHome bits pages root key spot → value_in key spot.bucket.slots ≡ None
        → is_ghost_of key owner (slot_of spot) ≡ true
        → WritesSpot pages pages' spot (Live key value)
        → ChangesRecord bits pages pages' root
        (slot_change key (Some value) spot.number spot.at (Live key value)) }
{}
