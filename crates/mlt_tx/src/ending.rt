//! The ends of operations and inverses.

ghost use Rattle.std.specs.Prelude.{◌≡◌, ◌≤◌, ◌+◌, [], ◌∷◌, ◌++◌, Some};
ghost use Rattle.mlt_object_kinds.specs.Operations.{cell_of};
ghost use Rattle.mlt_object_locks.specs.Locks.{reservation_of};
ghost use Rattle.mlt_page_subtx.specs.Images.{AreThere};
ghost use Rattle.mlt_tx.specs.Endings.{TellsOfEnd, tx_state};

use crate::shared::SharedState;
use mlt_event::Answer;
use mlt_object_base::UndoList;
use mlt_object_kinds::Done;
use mlt_page_subtx::Subtx;
use mlt_trace::TraceItem;

/// Ends an operation that was told its reply: asks for its object lock. Where that clashes, all is rolled back. It takes
/// no memory.
#[inline(always)]
pub(crate) fn finish(
    done: Done,
    subtx: &mut Subtx,
    undo: &mut UndoList,
    shared: &mut SharedState,
) -> Answer
    requires reserved { reservation_of shared.old.objects.reserved subtx.old.tx
        ≡ Some (cell_of done.0) }
    requires spare { 1 ≤ undo.old.spare }
    requires room { 1 ≤ shared.old.history.room }
    requires there { AreThere subtx.old.images shared.old.pages.store.pages }
    ensures tells { TellsOfEnd done
        (tx_state subtx.old undo.old shared.old) (tx_state subtx.new undo.new shared.new)
        result }
    ensures handed { shared.new.history.handed ≡ shared.old.history.handed }
{
    let tx = subtx.tx();
    if let Err(by) = shared.objects.ask(tx, &done) {
        subtx.roll_back(&mut shared.pages.store, &mut shared.pages.locks);
        return Answer::Blocked { by };
    }
    subtx.end(&mut shared.pages.locks);
    undo.push(done);
    shared.history.push(TraceItem::Op(tx, done));
    Answer::Done(done.reply())
}
