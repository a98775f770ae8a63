//! What numbers an item can have.

ghost use Rattle.mlt_trace.specs.Ranges.{FitsItem};

use crate::item::TraceItem;
use mlt_object_kinds::{done_fits, fits_64};
use mlt_types::TxId;

/// The numbers of an item are those of their types. It does nothing.
pub(crate) fn item_fits(item: &TraceItem)
    ensures { FitsItem item.now }
{
    match item {
        TraceItem::Begin(TxId(tx)) => fits_64(*tx),
        TraceItem::Op(TxId(tx), done) => {
            fits_64(*tx);
            done_fits(done);
        }
        TraceItem::Back(TxId(tx)) => fits_64(*tx),
        TraceItem::Commit(TxId(tx), number) => {
            fits_64(*tx);
            fits_64(*number);
        }
        TraceItem::Abort(TxId(tx)) => fits_64(*tx),
    }
}
