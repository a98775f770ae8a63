//! What the laws ask of states and items.

ghost use Rattle.mlt_order.specs.Runs.{IsFunctional, IsInjective};

/// States, and the items that lead from one to another.
pub trait Steps {
    /// What all cells hold at one moment.
    type State;
    /// An operation with its reply.
    type Item;

    /// From the state before, the item leads to the state after.
    ghost step: { Self.State → Self.Item → Self.State → Type 0 };

    /// The state before and the item fix the state after.
    ghost one_end: { IsFunctional step };

    /// The state after and the item fix the state before.
    ghost one_start: { IsInjective step };
}
