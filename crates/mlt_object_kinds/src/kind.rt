//! What every kind of object has.

ghost use Rattle.std.specs.Prelude.{◌≡◌};

/// A kind of object: the states of one cell, and the operations on it with their replies.
pub trait Kind {
    /// The states of a cell.
    type State;
    /// The operations on a cell.
    type Op;
    /// The reply to an operation.
    type Reply;

    /// Whether a cell can be in the state.
    ghost is_state: { Self.State → Type 0 };

    /// From the state before, the operation gets the reply and leads to the state after.
    ghost step: { Self.State → Self.Op → Self.Reply → Self.State → Type 0 };

    /// The state after an operation, and its reply.
    fn apply(state: &Self::State, op: &Self::Op) -> (Self::State, Self::Reply)
        requires { is_state state.now }
        ensures { step state.now op.now result.1 result.0 };

    /// The state before an operation that was told the reply and led to `state`.
    fn undo(state: &Self::State, op: &Self::Op, reply: &Self::Reply) -> Self::State
        requires { (before : Self.State) × step before op.now reply.now state.now }
        ensures { (before : Self.State) → step before op.now reply.now state.now
            → result ≡ before };

    /// For each state and operation there is one legal reply, and one state after.
    ghost one_answer: { (s : Self.State) (o : Self.Op) (r q : Self.Reply) (t u : Self.State)
        → step s o r t → step s o q u → (r ≡ q) × (t ≡ u) };

    /// The state after fixes the state before.
    ghost one_start: { (s u t : Self.State) (o : Self.Op) (r : Self.Reply) → step s o r t
        → step u o r t → s ≡ u };

    /// A step leads from a state to a state.
    ghost stays_state: { (s t : Self.State) (o : Self.Op) (r : Self.Reply) → step s o r t
        → is_state s × is_state t };
}
