//! The counters of a base that are not 0, in an ordered map.

ghost use Rattle.std.specs.Prelude.{◌≡◌, ◌++◌, None, IsOkUnless, IfOk, OnErr, OnOk};
ghost use Rattle.std.specs.FinMap as map;
ghost use Rattle.std.specs.String.{string_bytes};
ghost use Rattle.mlt_object_base.specs.BaseText.{counter_lines};
ghost use Rattle.mlt_object_base.specs.Growth.{LeavesZero};
ghost use Rattle.mlt_object_base.specs.Kept.{CountsAt};
ghost use Rattle.mlt_object_kinds.specs.Bases.{counter_value};

use crate::text::push_counters;
use mlt_object_kinds::{Counter, CounterOp, Kind, ObjReply};
use mlt_types::Refusal;
use std::alloc::Global;
use std::collections::BTreeMap;
use std::marker::Model;

// The values of the counters that are not 0, by their numbers. A contract sees a finite map to the values less 1.
#[derive(Drop)]
pub(crate) struct Counters {
    values: BTreeMap<u32, u64>,
}

impl Model for Counters {
    ghost use Rattle.std.specs.Prelude.{ℕ};
    ghost use Rattle.std.specs.Coded.{coded_ℕ};
    ghost use Rattle.std.specs.FinMap as map;
    ghost use Rattle.std.specs.Ordering.{nat_cmp};
    ghost use Rattle.mlt_object_base.specs.Kept.{AreNotZero, less_one};

    ghost Value = { map.FinMap nat_cmp ℕ };

    ghost coded = { map.code coded_ℕ coded_ℕ };

    ghost view = { λ c. map.from_entries (less_one c.values.entries) };

    ghost invariant = { λ c. AreNotZero c.values.entries };
}

#[tactic(auto, using(crate::proofs::Maps::counter_in_map, crate::proofs::Maps::counter_map_updated, crate::proofs::Maps::counter_absent))]
impl Counters {
    pub(crate) fn new(alloc: Global) -> Counters
        ensures { result ≡ map.empty }
    {
        Counters {
            values: BTreeMap::new(alloc),
        }
    }

    pub(crate) fn value(&self, counter: u32) -> u64
        ensures { result ≡ counter_value (map.get self.now counter) }
    {
        self.values.get(&counter).copied().unwrap_or(0)
    }

    // Executes an operation on a counter at 0, and returns its reply.
    fn start(&mut self, counter: u32, op: &CounterOp) -> Result<ObjReply, Refusal>
        requires { map.get self.old counter ≡ None }
        ensures done { IfOk result (λ reply. CountsAt self.old counter op.now reply self.new) }
        ensures err { OnErr result (self.new ≡ self.old) }
        ensures growth { OnErr result (LeavesZero op.now) }
        ensures refusal { IsOkUnless result Refusal.OutOfMemory }
    {
        let (after, reply) = Counter::apply(&0, op);
        if after != 0 {
            self.values.insert(counter, after)?;
        }
        Ok(reply)
    }

    // Executes an operation, and returns its reply. A counter that is not 0 is searched for once, unless it becomes 0.
    pub(crate) fn apply(&mut self, counter: u32, op: &CounterOp) -> Result<ObjReply, Refusal>
        ensures done { IfOk result (λ reply. CountsAt self.old counter op.now reply self.new) }
        ensures err { OnErr result (self.new ≡ self.old) }
        ensures growth { OnErr result ((map.get self.old counter ≡ None) × LeavesZero op.now) }
        ensures refusal { IsOkUnless result Refusal.OutOfMemory }
    {
        let Some(value) = self.values.get_mut(&counter) else {
            return self.start(counter, op);
        };
        let before = *value;
        let (after, reply) = Counter::apply(&before, op);
        if after != 0 {
            *value = after;
            return Ok(reply);
        }
        self.values.remove(&counter);
        Ok(reply)
    }

    // Appends a line `counter C v` for each counter that is not 0, by rising number.
    pub(crate) fn push_text(&self, text: &mut String) -> Result<(), Refusal>
        ensures text { OnOk result
            (string_bytes text.new ≡ string_bytes text.old ++ counter_lines self.now) }
        ensures refusal { IsOkUnless result Refusal.OutOfMemory }
    {
        push_counters(text, &self.values)
    }
}
