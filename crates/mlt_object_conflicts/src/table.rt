//! What a conflict table is.

ghost use Rattle.std.specs.Prelude.{◌≡◌, Bool, IfNone, IfSome, MatchBool, MatchOption, Option};
ghost use Rattle.mlt_object_conflicts.specs.Tables.{ClassesConflict, ClassesCommute, HasLegalItem, IsExample};

use crate::example::Example;
use mlt_object_kinds::Kind;

/// A kind of object with an exact conflict table over classes of operations with their replies.
pub trait Table: Kind {
    /// The rows of the table: what was asked and told, whatever the amounts.
    type Class: Copy;

    /// The class of an operation with a reply, where the table has such a row.
    ghost class_of: { Self.Op → Self.Reply → Option Self.Class };

    /// Whether the table marks the pair of a held and a requested class.
    ghost marks: { Self.Class → Self.Class → Bool };

    /// The class of an operation with its reply; None where the table has no such row, and then the operation
    /// is never told the reply.
    fn class(op: &Self::Op, reply: &Self::Reply) -> Option<Self::Class>
        ensures row { result ≡ class_of op.now reply.now }
        ensures none { IfNone result
            ((before after : Self.State) → Self.step before op.now reply.now after → ⊥) };

    /// Whether a requested operation of the class may conflict with a held one: exactly where some operations
    /// of the classes, in some state, do not right commute backward.
    fn conflicts(held: Self::Class, requested: Self::Class) -> bool
        ensures table { result ≡ marks held requested }
        ensures exact { MatchBool result (ClassesConflict Self.step class_of held requested)
            (ClassesCommute Self.step class_of held requested) };

    /// A state and two operations of the classes that do not right commute backward there; None where there
    /// are none.
    fn example(
        held: Self::Class,
        requested: Self::Class,
    ) -> Option<Example<Self::State, Self::Op, Self::Reply>>
        ensures breaks { MatchOption result (ClassesCommute Self.step class_of held requested)
            (λ x. IsExample Self.step class_of held requested x) }
        ensures state { IfSome result (λ x. Self.is_state x.state) };

    /// Each class has an operation that gets its reply in some state.
    ghost each_is_legal: { (c : Self.Class) → HasLegalItem Self.step class_of c };
}
