//! Rooms of the entries of a table, added up.

ghost use Rattle.std.specs.Prelude.{◌≡◌, ℕ, ◌+◌, ◌≤◌, Some, None};
ghost use Rattle.std.specs.Ordering.{nat_cmp};
ghost use Rattle.std.specs.FinMap as map;
ghost use Rattle.mlt_trace.specs.Rooms.{total_room};

/// Entries of a table by numbers, each with room of its own for items that are to come.
pub trait Rooms {
    /// What stands under a number.
    type Entry;

    /// For how many items the entry has room.
    ghost room_of: { Self.Entry → ℕ };
}

/// What one entry that comes, changes or goes makes of the total room of a table.
pub fn rooms_add_up<T: Rooms>()
    ensures none { total_room T.room_of map.empty ≡ 0 }
    ensures comes { (table : map.FinMap nat_cmp T.Entry) (k : ℕ) (entry : T.Entry)
        → map.get table k ≡ None
        → total_room T.room_of (map.insert table k entry)
        ≡ total_room T.room_of table + T.room_of entry }
    ensures changes { (table : map.FinMap nat_cmp T.Entry) (k : ℕ) (old entry : T.Entry)
        → map.get table k ≡ Some old
        → total_room T.room_of (map.insert table k entry) + T.room_of old
        ≡ total_room T.room_of table + T.room_of entry }
    ensures goes { (table : map.FinMap nat_cmp T.Entry) (k : ℕ) (old : T.Entry)
        → map.get table k ≡ Some old
        → total_room T.room_of (map.remove table k) + T.room_of old ≡ total_room T.room_of table }
    ensures within { (table : map.FinMap nat_cmp T.Entry) (k : ℕ) (entry : T.Entry)
        → map.get table k ≡ Some entry → T.room_of entry ≤ total_room T.room_of table }
{}
