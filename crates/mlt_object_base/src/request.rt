//! What an operation is asked to do.

ghost use Rattle.std.specs.Prelude.{◌≡◌, ℕ, Option, is_some, IsSome};
ghost use Rattle.mlt_object_base.specs.Records.{CanChange, counter_of_record, record_after};
ghost use Rattle.mlt_object_base.specs.Requests.{CanResize, decision, IsPossible, resized, size_decision, size_key_of, target_of};

use crate::record::{RecChange, access, inverse, reply, size_change, size_inverse};
use mlt_object_kinds::{Done, ElementOp, ObjOp, ObjReply};
use mlt_types::{Cell, Key, Mode, Value};

/// What an operation is asked to do.
#[derive(Clone, Copy, Debug, PartialEq, Eq)]
pub enum Request {
    /// This operation of an object.
    Do(ObjOp),
    /// To take back this one, which was told its reply and has an inverse.
    TakeBack(Done),
}

impl Request {
    /// The key to walk to, and the mode in which its bucket is locked.
    pub fn target(&self) -> (Key, Mode)
        ensures { result ≡ target_of self.now }
    {
        match self {
            Request::Do(op) => access(op),
            Request::TakeBack(done) => (Key::of(&done.cell()), Mode::Exclusive),
        }
    }

    /// The key of the size record that is changed too, or may be: by an element's addition or removal, and where one is
    /// taken back.
    pub fn size_key(&self) -> Option<Key>
        ensures { result ≡ size_key_of self.now }
    {
        let set = match self {
            Request::Do(ObjOp::Element(set, _, ElementOp::Add | ElementOp::Remove)) => *set,
            Request::Do(_) => return None,
            Request::TakeBack(done) => match (done.op(), done.reply()) {
                (ObjOp::Element(set, _, ElementOp::Add), ObjReply::Added) => set,
                (ObjOp::Element(set, _, ElementOp::Remove), ObjReply::Removed) => set,
                _ => return None,
            },
        };
        Some(Key::of(&Cell::Size(set)))
    }

    /// The reply and the change where the key has this value, or none.
    pub fn decide(&self, found: Option<Value>) -> (ObjReply, Option<RecChange>)
        requires possible { IsPossible self.now found }
        ensures told { result ≡ decision self.now found }
        ensures fits { CanChange result.1 found }
    {
        match self {
            Request::Do(op) => reply(op, found),
            Request::TakeBack(done) => (done.reply(), inverse(done)),
        }
    }

    /// The change of the set's size record by an operation with this reply, where that record has this value, or there is none:
    /// the size becomes one more, or one less, or there is no change. Where the decision changes the record of the
    /// operation's own key, it changes this one too, and else neither.
    pub fn resize(&self, reply: ObjReply, found: Option<Value>) -> Option<RecChange>
        ensures change { result ≡ size_decision self.now reply found }
        ensures fits { CanResize self.now reply found → CanChange result found }
        ensures size { CanResize self.now reply found
            → counter_of_record (record_after result found)
            ≡ resized self.now reply (counter_of_record found) }
        ensures without { size_key_of self.now ≡ None → result ≡ None }
        ensures both { (own : Option ℕ) → IsSome (size_key_of self.now)
            → reply ≡ (decision self.now own).0
            → is_some result ≡ is_some (decision self.now own).1 }
    {
        match self {
            Request::Do(op) => size_change(op, reply, found),
            Request::TakeBack(done) => size_inverse(done),
        }
    }
}
