//! Counters: a value of 0 to 2^64 - 1, counted modulo 2^64.

ghost use Rattle.std.specs.Prelude.{◌≡◌};
ghost use Rattle.mlt_object_kinds.specs.Counters.{CounterStep, IsCounter};

use crate::kind::Kind;
use crate::operation::ObjReply;

/// What is asked of a counter.
#[derive(Clone, Copy, Debug, PartialEq, Eq)]
pub enum CounterOp {
    /// Adds an amount, modulo 2^64.
    Up(u64),
    /// Takes an amount away, modulo 2^64.
    Down(u64),
    /// Reads the value.
    Read,
}

/// The kind of counters. A state is the value; every counter is there, with 0 at the start.
#[derive(Clone, Copy, Debug)]
pub struct Counter;

impl Kind for Counter {
    ghost use Rattle.mlt_object_kinds.specs.CounterLaws.{counter_one_answer, counter_one_start, counter_stays};

    type State = u64;

    type Op = CounterOp;

    type Reply = ObjReply;

    ghost is_state = { IsCounter };

    ghost step = { CounterStep };

    ghost one_answer = { counter_one_answer };

    ghost one_start = { counter_one_start };

    ghost stays_state = { counter_stays };

    fn apply(state: &u64, op: &CounterOp) -> (u64, ObjReply) {
        match *op {
            CounterOp::Up(amount) => (state.wrapping_add(amount), ObjReply::Done),
            CounterOp::Down(amount) => (state.wrapping_sub(amount), ObjReply::Done),
            CounterOp::Read => (*state, ObjReply::Is(*state)),
        }
    }

    fn undo(state: &u64, op: &CounterOp, _reply: &ObjReply) -> u64 {
        match *op {
            CounterOp::Up(amount) => state.wrapping_sub(amount),
            CounterOp::Down(amount) => state.wrapping_add(amount),
            CounterOp::Read => *state,
        }
    }
}
