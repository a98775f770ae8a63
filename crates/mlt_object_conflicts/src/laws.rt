//! The laws of commit order over whole bases. Each is the contract of a function that does nothing.

ghost use Rattle.std.specs.Prelude.{◌≡◌, ◌≢◌, ◌↔◌, ℕ, List, ◌++◌, [], ◌∷◌, Contains, false, true};
ghost use Rattle.mlt_object_conflicts.specs.BaseConflicts.{SomeLikeThemBreak};
ghost use Rattle.mlt_object_conflicts.specs.Clashes.{clashes};
ghost use Rattle.mlt_object_kinds.specs.Bases.{Base, TranscriptLeads as RunsOfBases, Step, Transcript, empty_base};
ghost use Rattle.mlt_object_kinds.specs.Operations.{AreApart};
ghost use Rattle.mlt_object_kinds.specs.declared.operation.ObjOp.{ObjOp};
ghost use Rattle.mlt_object_kinds.specs.declared.operation.ObjReply.{ObjReply};
ghost use Rattle.mlt_order.specs.Histories.{Entry, IsCommitOrderSerializable, IsHistory, Lists, MayCome, lists_of};
ghost use Rattle.mlt_order.specs.Histories.Entry.{Did};
ghost use Rattle.mlt_order.specs.Histories.Stage.{Running};
ghost use Rattle.mlt_order.specs.Interleavings.{UndoneTo};
ghost use Rattle.mlt_order.specs.Runs.{IsFunctional, IsInjective, IsSerialBase, RightCommutesBackward, Runs};
ghost use Rattle.mlt_order.specs.Tables.{AreFinitelyMany};

/// Two operations do not clash that are locked on no cell of both. Over whole bases an operation right commutes
/// backward with a held one where they do not clash. Where they clash, some operations on their cells and of their
/// classes do not.
pub fn clashes_are_exact()
    ensures apart { (held requested : ObjOp × ObjReply) → AreApart held.0 requested.0
        → clashes held requested ≡ false }
    ensures commutes { (held requested : ObjOp × ObjReply) → clashes held requested ≡ false
        → RightCommutesBackward Step held requested }
    ensures breaks { (held requested : ObjOp × ObjReply) → clashes held requested ≡ true
        → SomeLikeThemBreak held requested }
{}

/// What the laws of commit order ask of steps: a base and an operation with its reply fix the base after, and
/// that one and the operation fix the base before. The two words for runs are one.
pub fn steps_of_bases_meet_the_laws()
    ensures one_end { IsFunctional Step }
    ensures one_start { IsInjective Step }
    ensures runs { (before after : Base) (transcript : Transcript)
        → Runs Step before transcript after ↔ RunsOfBases before transcript after }
{}

/// An operation of a running transaction may come next where it clashes with nothing that others hold.
pub fn operation_without_clash_may_come()
    ensures { (lists : Lists (ObjOp × ObjReply)) (before after : Base) (i : ℕ)
        (item : ObjOp × ObjReply)
        → lists.stage i ≡ Running → Step before item after
        → ((j : ℕ) (held : ObjOp × ObjReply) → j ≢ i → Contains (lists.held j) held
        → clashes held item ≡ false)
        → MayCome Step lists before (Did i item) after }
{}

/// Whatever transactions begin, do, take back, commit and close: the committed ones, run one after another in
/// the order of their commits from the empty base, give the replies that they were told and reach the one base
/// that is left when the open ones are undone.
pub fn every_history_of_bases_is_serializable()
    ensures serializable { (base : Base) (history : List (Entry (ObjOp × ObjReply)))
        → IsHistory Step empty_base history base
        → IsCommitOrderSerializable Step empty_base (lists_of history) base }
    ensures one { (base one other : Base) (history : List (Entry (ObjOp × ObjReply)))
        → IsHistory Step empty_base history base
        → UndoneTo Step one (lists_of history).transcripts base
        → UndoneTo Step other (lists_of history).transcripts base → one ≡ other }
    ensures undo { (base : Base) (history : List (Entry (ObjOp × ObjReply))) (i : ℕ)
        (rest : List (ObjOp × ObjReply)) (last : ObjOp × ObjReply)
        → IsHistory Step empty_base history base
        → (lists_of history).transcripts i ≡ rest ++ last ∷ []
        → (earlier : Base) × Step earlier last base
        × ((other : Base) → Step other last base → other ≡ earlier) }
{}
