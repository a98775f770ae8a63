//! The laws by which each event of a manager keeps the match of pages and history, and what follows from the match.

ghost use Rattle.std.specs.Prelude.{◌≡◌, ◌≤◌, ◌+◌, ℕ, Bool, List, [], false, Option, Some};
ghost use Rattle.std.specs.Ordering.{nat_cmp};
ghost use Rattle.std.specs.FinMap as map;
ghost use Rattle.std.specs.FinSet as set;
ghost use Rattle.mlt_types.specs.Cells.{IsInRange};
ghost use Rattle.mlt_order.specs.Histories.{IsHistory};
ghost use Rattle.mlt_order.specs.Tables.{SameElsewhere};
ghost use Rattle.mlt_object_kinds.specs.Bases.{Base, Step, empty_base};
ghost use Rattle.mlt_object_kinds.specs.Operations.{cell_of};
ghost use Rattle.mlt_object_kinds.specs.declared.operation.ObjOp.{ObjOp};
ghost use Rattle.mlt_object_kinds.specs.declared.operation.ObjReply.{ObjReply};
ghost use Rattle.mlt_object_base.specs.Meaning.{Means, changes_back, changes_of, told_by};
ghost use Rattle.mlt_object_base.specs.Effects.{reply_of, changes_on, inverse_of};
ghost use Rattle.mlt_object_base.specs.declared.request.Request.TheVariants.{Do, TakeBack};
ghost use Rattle.mlt_object_base.specs.Records.{CanChange};
ghost use Rattle.mlt_object_base.specs.declared.record.RecChange.TheVariants.{Revive};
ghost use Rattle.mlt_page.specs.declared.page.Page.{Page};
ghost use Rattle.mlt_hash_form.specs.Records.{live_records};
ghost use Rattle.mlt_hash_form.specs.Changes.{IsOpening};
ghost use Rattle.mlt_hash_form.specs.File.{GivesPseudokeys, look_up};
ghost use Rattle.mlt_hash_form.specs.Held.{Agrees};
ghost use Rattle.mlt_hash_access.specs.Views.{View};
ghost use Rattle.mlt_hash.specs.Changes.{HasOwnGhost};
ghost use Rattle.mlt_hash.specs.Walks.{HasRead, IsStanding, WalkFields};
ghost use Rattle.mlt_hash.specs.declared.pass.Phase.TheVariants.{AtBucket};
ghost use Rattle.mlt_tx_two_records.specs.TwoRecordWalks.{CanDoBoth};
ghost use Rattle.mlt_tx_two_records.specs.Leaving.{LeavesAsTold};
ghost use Rattle.mlt_tx_meaning.specs.Presences.{IsOpInRange, op_key};
ghost use Rattle.mlt_tx_meaning.specs.AbstractStates.{PagesMeanHistory, AbstractState, record_of, lists_in, context_of};
ghost use Rattle.mlt_tx_meaning.specs.Ends.{KeepsPages, ChangesPages, EndsWith};
ghost use Rattle.mlt_tx_meaning.specs.Events.{IsOpenAt, with_begun, with_closed, with_committed, new_state, MayDo, MayUndo, with_done, with_undone};

/// One base is what the pages mean, and what the history leads to.
pub fn pages_and_history_fix_the_base()
    ensures pages { (state : AbstractState) (other : Base)
        → PagesMeanHistory state → Means (live_records state.pages) other → other ≡ state.base }
    ensures history { (state : AbstractState) (other : Base)
        → PagesMeanHistory state → IsHistory Step empty_base state.history other
        → other ≡ state.base }
{}

/// The reply that the record of an operation's cell asks for is the one with which the operation is a step of the
/// base.
pub fn record_fixes_the_reply()
    ensures steps { (state : AbstractState) (op : ObjOp) → PagesMeanHistory state → IsOpInRange op
        → (after : Base) × Step state.base (op, (reply_of op (record_of state op)).0) after }
    ensures alone { (state : AbstractState) (op : ObjOp) (reply : ObjReply) (after : Base)
        → PagesMeanHistory state → IsInRange (cell_of op) → Step state.base (op, reply) after
        → reply ≡ (reply_of op (record_of state op)).0 }
{}

/// The pages of a file as it is opened match the history in which nothing has begun.
pub fn opening_file_matches_the_empty_history()
    ensures { (bits : ℕ → ℕ) (root max_depth : ℕ) (pages : map.FinMap nat_cmp Page)
        (undoing : ℕ → Bool) (dir bucket : ℕ)
        → GivesPseudokeys bits → max_depth ≤ 16 → IsOpening (map.get pages) root dir bucket
        → PagesMeanHistory (new_state bits root max_depth pages undoing) }
{}

/// The match is about the clean pages, number by number, so it stays where they do.
pub fn same_pages_keep_the_match()
    ensures { (state : AbstractState) (pages : map.FinMap nat_cmp Page)
        → PagesMeanHistory state → KeepsPages state pages
        → PagesMeanHistory (record state { pages = pages }) }
{}

/// They match on when the next number is given out. Of all other numbers it stays as it was whether they are being
/// undone.
pub fn begin_keeps_the_match()
    ensures { (state : AbstractState) (undoing : ℕ → Bool)
        → PagesMeanHistory state → SameElsewhere state.undoing undoing (state.begun + 1)
        → PagesMeanHistory (with_begun state undoing) }
{}

/// And when aborts begin.
pub fn abort_keeps_the_match()
    ensures { (state : AbstractState) (undoing : ℕ → Bool)
        → PagesMeanHistory state → ((tx : ℕ) → undoing tx ≡ false → state.undoing tx ≡ false)
        → PagesMeanHistory (record state { undoing = undoing }) }
{}

/// And when an open transaction commits, or is closed with nothing left that it did.
pub fn end_keeps_the_match()
    ensures commit { (state : AbstractState) (tx : ℕ) (undoing : ℕ → Bool)
        → PagesMeanHistory state → IsOpenAt state tx → SameElsewhere state.undoing undoing tx
        → PagesMeanHistory (with_committed state tx undoing) }
    ensures close { (state : AbstractState) (tx : ℕ) (undoing : ℕ → Bool)
        → PagesMeanHistory state → IsOpenAt state tx → SameElsewhere state.undoing undoing tx
        → (lists_in state).transcripts tx ≡ []
        → PagesMeanHistory (with_closed state tx undoing) }
{}

/// Where an operation ends, the base makes its step, with the reply that the record of its cell asks for, and the
/// match is kept. It asks that the pages are those that the changes leave which go with that reply, one of its own record
/// and one of its set's size at most, and that nobody else holds an operation that clashes with it.
pub fn operation_keeps_the_match()
    ensures { (state : AbstractState) (tx : ℕ) (op : ObjOp) (pages : map.FinMap nat_cmp Page)
        → let records = live_records state.pages in
        let item : ObjOp × ObjReply = (op, told_by records op) in
        PagesMeanHistory state → MayDo state tx item
        → ChangesPages state tx (changes_on op (changes_of records op)) pages
        → (base : Base) × Step state.base item base
        × PagesMeanHistory (with_done state tx item pages base) }
{}

/// Where the inverse of the last item of a transaction ends, the base is one from which the item leads to what it
/// was, and the match is kept. It asks that the transaction is being undone, and that the pages are those that the
/// inverse leaves, with its set's size as it was.
pub fn undoing_keeps_the_match()
    ensures { (state : AbstractState) (tx : ℕ) (item : ObjOp × ObjReply)
        (pages : map.FinMap nat_cmp Page)
        → PagesMeanHistory state → MayUndo state tx item
        → ChangesPages state tx (changes_on item.0 (changes_back item)) pages
        → (base : Base) × Step base item state.base
        × PagesMeanHistory (with_undone state tx pages base) }
{}

/// What an operation on two records is to change is there on the clean pages, and so is what the inverse of a transaction's
/// last item is to change: the size record that is lowered, or raised back, and the own ghost that is revived.
pub fn what_both_changes_need_is_there()
    ensures done { (state : AbstractState) (tx : ℕ) (op : ObjOp)
        → PagesMeanHistory state → IsInRange (cell_of op)
        → CanDoBoth (context_of state tx) (map.get state.pages) (Do op) }
    ensures undone { (state : AbstractState) (tx : ℕ) (item : ObjOp × ObjReply)
        → PagesMeanHistory state → MayUndo state tx item
        → CanDoBoth (context_of state tx) (map.get state.pages) (TakeBack item) }
{}

/// Where an operation on two records ends, it was told what the record of its cell asks for, and leaves the changes that go
/// with that, one after the other. Where the inverse of one ends, it leaves those that take it back.
pub fn both_changes_are_left()
    ensures done { (state : AbstractState) (tx : ℕ) (op : ObjOp) (reply : ObjReply) (view : View)
        (pages : map.FinMap nat_cmp Page)
        → let records = live_records state.pages in
        PagesMeanHistory state → IsInRange (cell_of op)
        → LeavesAsTold (context_of state tx) (Do op) reply view (map.get state.pages)
        → EndsWith state view pages
        → (told_by records op ≡ reply)
        × ChangesPages state tx (changes_on op (changes_of records op)) pages }
    ensures undone { (state : AbstractState) (tx : ℕ) (item : ObjOp × ObjReply) (reply : ObjReply)
        (view : View) (pages : map.FinMap nat_cmp Page)
        → PagesMeanHistory state → IsInRange (cell_of item.0)
        → LeavesAsTold (context_of state tx) (TakeBack item) reply view (map.get state.pages)
        → EndsWith state view pages
        → ChangesPages state tx (changes_on item.0 (changes_back item)) pages }
{}

/// The record of an operation's cell is what is looked up of its key, and what was found of the key, as long as what was
/// read on its way is held.
pub fn walks_find_the_record()
    ensures look_up { (state : AbstractState) (op : ObjOp) → PagesMeanHistory state
        → record_of state op ≡ look_up state.bits (map.get state.pages) state.root (op_key op) }
    ensures found { (state : AbstractState) (tx : ℕ) (op : ObjOp) (key : ℕ) (view : View)
        (found : Option ℕ)
        → PagesMeanHistory state → HasRead (context_of state tx) key view found
        → key ≡ op_key op → Agrees view.seen (map.get state.pages)
        → found ≡ record_of state op }
{}

/// A walk for the inverse of a transaction's last item finds at its bucket what the inverse changes: a record, or
/// none and the transaction's own ghost.
pub fn what_an_inverse_changes_is_there()
    ensures { (state : AbstractState) (tx : ℕ) (item : ObjOp × ObjReply) (walk : WalkFields)
        (view : View)
        (bucket depth : ℕ) (found : Option ℕ)
        → PagesMeanHistory state → MayUndo state tx item
        → walk.phase ≡ AtBucket bucket depth found → walk.key ≡ op_key item.0
        → IsStanding (context_of state tx) walk view → Agrees view.seen (map.get state.pages)
        → CanChange (inverse_of item) found
        × (inverse_of item ≡ Some Revive → HasOwnGhost tx walk view) }
{}

/// A walk stands where it stood when another transaction begins, and when one commits or is closed.
pub fn walks_stand_while_others_begin_and_end()
    ensures begins { (state : AbstractState) (undoing : ℕ → Bool) (tx : ℕ) (walk : WalkFields)
        (view : View)
        → PagesMeanHistory state
        → IsStanding (context_of state tx) walk view → Agrees view.seen (map.get state.pages)
        → IsStanding (context_of (with_begun state undoing) tx) walk view }
    ensures ends { (state : AbstractState) (tx other : ℕ) (walk : WalkFields) (view : View)
        → PagesMeanHistory state
        → IsStanding (context_of state tx) walk view → Agrees view.seen (map.get state.pages)
        → let active = set.remove state.active other in
        IsStanding (record (context_of state tx) { active = active }) walk view }
{}
