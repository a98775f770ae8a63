//! What agreement with a history gives.

ghost use Rattle.std.specs.Prelude.{◌≡◌, List};
ghost use Rattle.mlt_object_kinds.specs.Bases.{Base, Step, empty_base};
ghost use Rattle.mlt_order.specs.Runs.{IsSerialBase};
ghost use Rattle.mlt_trace.specs.declared.item.TraceItem.{TraceItem};
ghost use Rattle.mlt_trace.specs.Numbers.{AreBegunInOrder};
ghost use Rattle.mlt_trace_check.specs.Traces.{ArePlaced, told};
ghost use Rattle.mlt_script_serial.specs.declared.outcome.Outcome.{Outcome};
ghost use Rattle.mlt_trace_audit.specs.Agreement.{Agrees};
ghost use Rattle.mlt_trace_audit.specs.Committed.{AreCommittedOf, IsBaseOfOutcomes, transcripts_of};

/// Of outcomes that agree with a history, the committed ones, in the order of their commits, have just the
/// committed transcripts of the history. So the base to which these lead is that of the outcomes.
pub fn committed_outcomes_are_the_committed_list()
    ensures list { (outcomes : List Outcome) (items : List TraceItem)
        → ArePlaced items → AreBegunInOrder items → Agrees outcomes items
        → (ordered : List Outcome) × AreCommittedOf outcomes ordered
        × (transcripts_of ordered ≡ (told items).committed) }
    ensures base { (outcomes : List Outcome) (items : List TraceItem) (base : Base)
        → ArePlaced items → AreBegunInOrder items → Agrees outcomes items
        → IsSerialBase Step empty_base (told items).committed base
        → IsBaseOfOutcomes outcomes base }
{}
