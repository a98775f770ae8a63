//! Which operations may clash, whatever they are told.

ghost use Rattle.std.specs.Prelude.{◌≡◌, MatchBool};
ghost use Rattle.mlt_work_waits.specs.Queues.{MayClash, NeverClash, holds_clash, may_clash};

use mlt_object_kinds::{AccountOp, CounterOp, Done, ElementOp, ObjOp};

/// Whether an operation, once it is done, may clash with one that is requested later: exactly where by some replies they do.
///
/// On one account or element only two that read never do; on one counter, two that read, and two that change it. A size may clash
/// with what may change it.
pub fn may_clash(held: &ObjOp, requested: &ObjOp) -> bool
    ensures table { result ≡ may_clash held.now requested.now }
    ensures exact { MatchBool result
        (MayClash held.now requested.now) (NeverClash held.now requested.now) }
{
    are_near(held, requested)
}

/// Whether one of these operations, which are held, may clash with one that is requested later.
pub(crate) fn holds_clash(held: &[Done], requested: &ObjOp) -> bool
    ensures { result ≡ holds_clash held.now requested.now }
{
    held.iter().any(|done| may_clash(&done.op(), requested))
}

// Whether some replies of the two clash.
fn are_near(held: &ObjOp, requested: &ObjOp) -> bool
    ensures { result ≡ may_clash held.now requested.now }
{
    match (*held, *requested) {
        (ObjOp::Account(account, op), ObjOp::Account(other, request)) => {
            account == other && !(op == AccountOp::Balance && request == AccountOp::Balance)
        }
        (ObjOp::Element(set, element, op), ObjOp::Element(other_set, other, request)) => {
            set == other_set
                && element == other
                && !(op == ElementOp::Has && request == ElementOp::Has)
        }
        (ObjOp::Counter(counter, op), ObjOp::Counter(other, request)) => {
            counter == other && (op == CounterOp::Read) != (request == CounterOp::Read)
        }
        (ObjOp::Element(set, _, op), ObjOp::Size(other_set))
        | (ObjOp::Size(other_set), ObjOp::Element(set, _, op)) => {
            set == other_set && op != ElementOp::Has
        }
        _ => false,
    }
}
