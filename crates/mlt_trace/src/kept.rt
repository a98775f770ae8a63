//! Items as a history keeps them.

ghost use Rattle.std.specs.Prelude.{◌≡◌, ◌↔◌, ℕ, IsTrue};
ghost use Rattle.mlt_object_kinds.specs.Packing.{op_in, reply_in};
ghost use Rattle.mlt_trace.specs.Items.{TellsOf};
ghost use Rattle.mlt_trace.specs.Keeping.{item_in};

use crate::item::TraceItem;
use mlt_object_kinds::{Done, ObjOp, OpKind, Packed, ReplyKind};
use mlt_types::TxId;
use std::fmt;
use std::marker::Model;

// What an item has beside its transaction. It takes 24 bytes: so that there is room beside an operation to say that it
// is one, the parts of it are here in two forms.
#[derive(Clone, Copy, Debug)]
enum PackedForm {
    Begin,
    // An operation whose set is 0: its kind, the kind of its reply, its number, its amount and the value told.
    Op(OpKind, ReplyKind, u32, u64, u64),
    // An operation whose amount is 0: its kind, the kind of its reply, its set, its number and the value told.
    OfSet(OpKind, ReplyKind, u16, u32, u64),
    Back,
    Commit(u64),
    Abort,
}

/// An item as a history keeps it, in 32 bytes: a `TraceItem` takes 40, and histories are what fills memory. A contract
/// sees the item.
#[derive(Debug, Drop)]
pub struct KeptItem {
    tx: TxId,
    form: PackedForm,
}

impl Model for KeptItem {
    ghost use Rattle.mlt_trace.specs.declared.item.TraceItem.{TraceItem};

    ghost Value = { TraceItem };

    ghost use Rattle.mlt_trace.specs.Keeping.{item_in};

    ghost view = { λ kept. item_in kept.tx kept.form };
}

impl KeptItem {
    /// The item, to be kept.
    pub fn of(item: TraceItem) -> KeptItem
        ensures { result ≡ item }
    {
        match item {
            TraceItem::Begin(tx) => KeptItem {
                tx,
                form: PackedForm::Begin,
            },
            TraceItem::Op(tx, done) => KeptItem {
                tx,
                form: form_of(done),
            },
            TraceItem::Back(tx) => KeptItem {
                tx,
                form: PackedForm::Back,
            },
            TraceItem::Commit(tx, number) => KeptItem {
                tx,
                form: PackedForm::Commit(number),
            },
            TraceItem::Abort(tx) => KeptItem {
                tx,
                form: PackedForm::Abort,
            },
        }
    }

    /// Whether it tells of this operation.
    #[inline(always)]
    pub fn is_op(&self, op: &ObjOp) -> bool
        ensures { IsTrue result ↔ TellsOf self.now op.now }
    {
        let parts = match self.form {
            PackedForm::Op(op, reply, number, amount, told) => Packed {
                op,
                reply,
                set: 0,
                number,
                amount,
                told,
            },
            PackedForm::OfSet(op, reply, set, number, told) => Packed {
                op,
                reply,
                set,
                number,
                amount: 0,
                told,
            },
            PackedForm::Begin | PackedForm::Back | PackedForm::Commit(_) | PackedForm::Abort =>
                return false,
        };
        parts.is_op(op)
    }

    /// The item that is kept.
    pub fn get(&self) -> TraceItem
        ensures { result ≡ self.now }
    {
        let tx = self.tx;
        match self.form {
            PackedForm::Begin => TraceItem::Begin(tx),
            PackedForm::Op(op, reply, number, amount, told) => TraceItem::Op(
                tx,
                done_of(Packed {
                    op,
                    reply,
                    set: 0,
                    number,
                    amount,
                    told,
                }),
            ),
            PackedForm::OfSet(op, reply, set, number, told) => TraceItem::Op(
                tx,
                done_of(Packed {
                    op,
                    reply,
                    set,
                    number,
                    amount: 0,
                    told,
                }),
            ),
            PackedForm::Back => TraceItem::Back(tx),
            PackedForm::Commit(number) => TraceItem::Commit(tx, number),
            PackedForm::Abort => TraceItem::Abort(tx),
        }
    }
}

// An operation that has a set has no amount.
fn form_of(done: Done) -> PackedForm
    ensures { (tx : ℕ) → item_in tx result ≡ TraceItem.Op tx done }
{
    let Packed {
        op,
        reply,
        set,
        number,
        amount,
        told,
    } = done.packed();
    match set {
        0 => PackedForm::Op(op, reply, number, amount, told),
        _ => PackedForm::OfSet(op, reply, set, number, told),
    }
}

fn done_of(parts: Packed) -> Done
    ensures { result ≡ (op_in parts, reply_in parts) }
{
    Done::new(parts.op(), parts.reply())
}

impl fmt::Display for KeptItem {
    ghost use Rattle.std.specs.Prelude.{Some};
    ghost use Rattle.mlt_trace.specs.Items.{item_text};

    ghost output = { λ item. Some (item_text item) };

    fn fmt<W: fmt::Write>(&self, f: &mut fmt::Formatter<W>) -> fmt::Result {
        let item = self.get();
        write!(f, "{item}")
    }
}
