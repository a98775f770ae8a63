//! Lines of a trace of the plain form, which has one space between words, no number above 19 digits and nothing else, read
//! in one pass. Nearly all that the program writes is of it. Other lines are read in the general way, with the same answer.

ghost use Rattle.std.specs.Prelude.{◌≡◌, ◌++◌, IfSome};
ghost use Rattle.mlt_trace_check.specs.Plain.{BeginsWithDone, BeginsWithItem, BeginsWithNumbered};

use mlt_object_kinds::{Done, ObjOp, ObjReply};
use mlt_script::{front_op, front_reply};
use mlt_text_words::{after, front_number};
use mlt_trace::TraceItem;
use mlt_types::TxId;

// The number from 1 on that stands behind these bytes, and the text behind it.
fn numbered<'a>(text: &'a [u8], bytes: &[u8]) -> Option<(u64, &'a [u8])>
    ensures { IfSome result (λ x. BeginsWithNumbered text.now bytes.now x.0 x.1.now) }
{
    match front_number(after(text, bytes)?)? {
        (0, _) => None,
        (number, rest) => Some((number, rest)),
    }
}

// An operation and its reply, and the text behind them.
fn front_done(text: &[u8]) -> Option<(ObjOp, ObjReply, &[u8])>
    ensures { IfSome result (λ x. BeginsWithDone text.now (x.0, x.1) x.2.now) }
{
    let (op, rest) = front_op(text)?;
    let (reply, rest) = front_reply(after(rest, b" ")?)?;
    Some((op, reply, rest))
}

fn begin(text: &[u8]) -> Option<(TraceItem, &[u8])>
    ensures { IfSome result (λ x. BeginsWithItem text.now x.0 x.1.now) }
{
    let (tx, rest) = numbered(text, b"begin ")?;
    let rest = after(rest, b"\n")?;
    Some((TraceItem::Begin(TxId(tx)), rest))
}

fn back(text: &[u8]) -> Option<(TraceItem, &[u8])>
    ensures { IfSome result (λ x. BeginsWithItem text.now x.0 x.1.now) }
{
    let (tx, rest) = numbered(text, b"back ")?;
    let rest = after(rest, b"\n")?;
    Some((TraceItem::Back(TxId(tx)), rest))
}

fn abort(text: &[u8]) -> Option<(TraceItem, &[u8])>
    ensures { IfSome result (λ x. BeginsWithItem text.now x.0 x.1.now) }
{
    let (tx, rest) = numbered(text, b"abort ")?;
    let rest = after(rest, b"\n")?;
    Some((TraceItem::Abort(TxId(tx)), rest))
}

fn op(text: &[u8]) -> Option<(TraceItem, &[u8])>
    ensures { IfSome result (λ x. BeginsWithItem text.now x.0 x.1.now) }
{
    let (tx, rest) = numbered(text, b"op ")?;
    let (op, reply, rest) = front_done(after(rest, b" ")?)?;
    let rest = after(rest, b"\n")?;
    Some((TraceItem::Op(TxId(tx), Done::new(op, reply)), rest))
}

fn commit(text: &[u8]) -> Option<(TraceItem, &[u8])>
    ensures { IfSome result (λ x. BeginsWithItem text.now x.0 x.1.now) }
{
    let (tx, rest) = numbered(text, b"commit ")?;
    let (number, rest) = numbered(rest, b" ")?;
    let rest = after(rest, b"\n")?;
    Some((TraceItem::Commit(TxId(tx), number), rest))
}

/// The item of the first line of a text, where one space stands between its words and an LF directly behind, and the text
/// after it. `None` also where the line has another form: then it is read in the general way.
pub fn plain_item(text: &[u8]) -> Option<(TraceItem, &[u8])>
    ensures { IfSome result (λ x. BeginsWithItem text.now x.0 x.1.now) }
{
    match *text.first()? {
        b'o' => op(text),
        b'b' if text.starts_with(b"be") => begin(text),
        b'b' => back(text),
        b'c' => commit(text),
        b'a' => abort(text),
        _ => None,
    }
}
