//! What an operation on two records knows, whatever other transactions do.

ghost use Rattle.std.specs.Prelude.{ℕ, ◌≡◌, ◌<◌, ◌≤◌, ◌+◌, Option, true};
ghost use Rattle.std.specs.Ordering.{nat_cmp};
ghost use Rattle.std.specs.FinMap as map;
ghost use Rattle.std.specs.FinSet as set;
ghost use Rattle.mlt_object_kinds.specs.declared.operation.ObjReply.{ObjReply};
ghost use Rattle.mlt_object_base.specs.declared.request.Request.{Request};
ghost use Rattle.mlt_page.specs.declared.page.Page.{Page};
ghost use Rattle.mlt_page_locks.specs.LockTables.{pages_of};
ghost use Rattle.mlt_hash_form.specs.File.{FilePages, GivesPseudokeys, HasForm, depth_of};
ghost use Rattle.mlt_hash_form.specs.Held.{Agrees};
ghost use Rattle.mlt_hash_access.specs.LocalStates.{LocalState};
ghost use Rattle.mlt_hash_access.specs.Views.{IsSameView, View, view_of};
ghost use Rattle.mlt_hash_split.specs.Rests.{KeepsNoMore};
ghost use Rattle.mlt_hash.specs.Walks.{WalkContext};
ghost use Rattle.mlt_tx_two_records.specs.Answers.{TellsOfTwoRecords};
ghost use Rattle.mlt_tx_two_records.specs.TwoRecordWalks.{IsTold, Stands, find_both, most_to_put, steps_of_two_records};
ghost use Rattle.mlt_tx_two_records.specs.FirstPass.{HasKeys};
ghost use Rattle.mlt_tx_two_records.specs.Leaving.{LeavesAsTold};
ghost use Rattle.mlt_tx_two_records.specs.declared.answer.TwoRecordAnswer.TheVariants as answer;
ghost use Rattle.mlt_tx_two_records.specs.declared.two_records.TwoRecordWalk.{TwoRecordWalk};

/// Who holds no page is at the start of an operation on two records.
pub fn two_record_walks_start_without_pages()
    ensures { (context : WalkContext) (request : Request) (own size : ℕ) (m : LocalState)
        → HasKeys request own size → pages_of m.locks m.running.tx ≡ map.empty
        → Stands (find_both own size) context request (view_of m) }
{}

/// Other transactions that change nothing of what it holds leave it where it stands, and with its reply told.
pub fn same_view_keeps_the_two_record_walk()
    ensures stands { (context : WalkContext) (request : Request) (two_records : TwoRecordWalk)
        (before after : View)
        → IsSameView before after → Stands two_records context request before
        → Stands two_records context request after }
    ensures told { (context : WalkContext) (request : Request) (reply : ObjReply)
        (two_records : TwoRecordWalk)
        (before after : View) → IsSameView before after
        → IsTold two_records context request reply before
        → IsTold two_records context request reply after }
{}

/// So do transactions that close, and others that begin and left no ghost on a page that is held, as long as its own
/// transaction is open.
pub fn closed_owners_keep_the_two_record_walk()
    ensures stands { (context : WalkContext) (request : Request) (two_records : TwoRecordWalk)
        (view : View)
        (fewer : set.FinSet nat_cmp) (clean : FilePages)
        → Stands two_records context request view → KeepsNoMore context.active fewer view
        → set.contains context.active context.tx ≡ true
        → Agrees view.seen clean → HasForm context.bits clean context.root
        → Stands two_records (record context { active = fewer }) request view }
    ensures told { (context : WalkContext) (request : Request) (reply : ObjReply)
        (two_records : TwoRecordWalk)
        (view : View) (fewer : set.FinSet nat_cmp) (clean : FilePages)
        → IsTold two_records context request reply view → KeepsNoMore context.active fewer view
        → set.contains context.active context.tx ≡ true
        → Agrees view.seen clean → HasForm context.bits clean context.root
        → IsTold two_records (record context { active = fewer }) request reply view }
{}

/// It holds fewer than 300 pages, wherever it stands. `clean` is some clean file that agrees with what it saw.
pub fn two_record_walks_hold_fewer_than_300_pages()
    ensures stands { (context : WalkContext) (request : Request) (two_records : TwoRecordWalk)
        (view : View)
        (clean : FilePages) → Stands two_records context request view
        → Agrees view.seen clean → HasForm context.bits clean context.root
        → map.len view.modes < 300 }
    ensures told { (context : WalkContext) (request : Request) (reply : ObjReply)
        (two_records : TwoRecordWalk)
        (view : View) (clean : FilePages) → IsTold two_records context request reply view
        → Agrees view.seen clean → HasForm context.bits clean context.root
        → map.len view.modes < 300 }
{}

/// Its reply goes with the records that the clean pages have of both keys, up to its end; and its changes are left
/// there, one after the other.
pub fn changes_are_left_as_told()
    ensures { (context : WalkContext) (request : Request) (reply : ObjReply)
        (two_records : TwoRecordWalk) (view : View)
        (clean : FilePages) → GivesPseudokeys context.bits
        → IsTold two_records context request reply view
        → Agrees view.seen clean → HasForm context.bits clean context.root
        → depth_of clean context.root ≤ context.max_depth
        → LeavesAsTold context request reply view clean }
{}

/// Each step that goes on leaves fewer up to its end, and the step that tells the reply leaves the end alone.
/// One that has taken none takes at most 1165, its end among them, and those aside that wait.
pub fn two_record_walks_come_to_an_end()
    ensures fewer { (context : WalkContext) (request : Request) (old new : LocalState)
        (before after : TwoRecordWalk)
        → context.max_depth ≤ 16
        → TellsOfTwoRecords context old new before after request answer.Going
        → steps_of_two_records context.root after (view_of new)
        < steps_of_two_records context.root before (view_of old) }
    ensures last { (context : WalkContext) (request : Request) (reply : ObjReply)
        (old new : LocalState)
        (before after : TwoRecordWalk)
        → TellsOfTwoRecords context old new before after request (answer.Told reply)
        → 1 < steps_of_two_records context.root before (view_of old) }
    ensures in_all { (root own size : ℕ) (view : View)
        → steps_of_two_records root (find_both own size) view ≡ 1165 }
{}
