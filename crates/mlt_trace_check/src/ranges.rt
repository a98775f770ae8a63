//! What numbers the items of a history have.

ghost use Rattle.std.specs.Prelude.{List};
ghost use Rattle.mlt_trace.specs.Numbers.{AreBegunInOrder};
ghost use Rattle.mlt_trace.specs.Ranges.{AllFit};
ghost use Rattle.mlt_trace_check.specs.Traces.{ArePlaced};
ghost use Rattle.mlt_trace.specs.declared.item.TraceItem.{TraceItem};
ghost use Rattle.mlt_trace_check.specs.Writable.{AreWritable};

/// The lines of such items can be read again, where each has its place and transactions begin in order.
pub fn placed_items_are_writable()
    ensures { (items : List TraceItem)
        → ArePlaced items → AreBegunInOrder items → AllFit items → AreWritable items }
{}
