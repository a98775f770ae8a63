//! The base of all objects, in maps and a set.

ghost use Rattle.std.specs.Prelude.{◌≡◌, None, Some, IfOk, OnOk, OnErr, IsOkUnless};
ghost use Rattle.std.specs.String.{string_bytes};
ghost use Rattle.mlt_object_base.specs.BaseText.{base_text};
ghost use Rattle.mlt_object_base.specs.Growth.{MakesObject};
ghost use Rattle.mlt_object_kinds.specs.Accounts.{IsAccount};
ghost use Rattle.mlt_types.specs.declared.cell.Cell.TheVariants as cell;
ghost use Rattle.mlt_object_kinds.specs.Bases.{account_at, counter_at, element_at, empty_base, size_at, with_state, Step};
ghost use Rattle.mlt_object_kinds.specs.Cells.CellState.{AccountState};

use crate::accounts::Accounts;
use crate::counters::Counters;
use crate::elements::Elements;
use mlt_object_kinds::{AccountOp, CounterOp, Element, ElementOp, Kind, ObjOp, ObjReply};
use mlt_types::Refusal;
use std::alloc::Global;
use std::marker::Model;

/// What all objects hold, kept in memory without pages. A contract sees the base of the objects.
#[derive(Drop)]
pub struct Base {
    alloc: Global,
    accounts: Accounts,
    elements: Elements,
    counters: Counters,
}

impl Model for Base {
    ghost use Rattle.mlt_object_kinds.specs.Bases.{Base as ObjectBase, coded_base};
    ghost use Rattle.mlt_object_base.specs.Kept.{base_of};

    ghost Value = { ObjectBase };

    ghost coded = { coded_base };

    ghost view = { λ base. base_of base.accounts base.elements base.counters };
}

#[tactic(auto, using(crate::proofs::Steps::step_that_stays))]
impl Base {
    /// The base with no account, no element, and every counter at 0.
    pub fn new(alloc: Global) -> Base
        ensures { result ≡ empty_base }
    {
        Base {
            alloc,
            accounts: Accounts::new(alloc),
            elements: Elements::new(alloc),
            counters: Counters::new(alloc),
        }
    }

    /// The balance of an account, 0 to 10^18, or `None` where there is no such account.
    pub fn balance(&self, account: u32) -> Option<u64>
        ensures state { result ≡ account_at self.now account }
        ensures in_range { IsAccount result }
    {
        self.accounts.balance(account)
    }

    /// Whether an element is in its set.
    pub fn has(&self, set: u16, element: u32) -> bool
        ensures { result ≡ element_at self.now set element }
    {
        self.elements.has(set, element)
    }

    /// How many elements a set has. It does not go over them.
    pub fn size(&self, set: u16) -> u64
        ensures { result ≡ size_at self.now set }
    {
        self.elements.size(set)
    }

    /// The value of a counter, 0 to 2^64 - 1.
    pub fn value(&self, counter: u32) -> u64
        ensures { result ≡ counter_at self.now counter }
    {
        self.counters.value(counter)
    }

    /// Gives an account this balance, 0 to 10^18, whether it is there or not. No other cell changes.
    ///
    /// # Errors
    /// `OutOfMemory`, where the account was to be made and a growth was refused; the base is then as before.
    pub fn put_account(&mut self, account: u32, balance: u64) -> Result<(), Refusal>
        requires range { IsAccount (Some balance) }
        ensures holds { OnOk result (self.new
            ≡ with_state self.old (cell.Account account) (AccountState (Some balance))) }
        ensures err { OnErr result (self.new ≡ self.old) }
        ensures growth { OnErr result (account_at self.old account ≡ None) }
        ensures refusal { IsOkUnless result Refusal.OutOfMemory }
    {
        self.accounts.put(account, balance)
    }

    /// Executes an operation, and returns its reply. No other cell changes.
    ///
    /// # Errors
    /// `OutOfMemory`, where an account or an element was to be made, or a counter at 0 to be counted by
    /// more than 0, and a growth was refused; the base is then as before.
    pub fn apply(&mut self, op: &ObjOp) -> Result<ObjReply, Refusal>
        ensures step { IfOk result (λ reply. Step self.old (op.now, reply) self.new) }
        ensures err { OnErr result (self.new ≡ self.old) }
        ensures growth { OnErr result (MakesObject self.old op.now) }
        ensures refusal { IsOkUnless result Refusal.OutOfMemory }
    {
        match *op {
            ObjOp::Account(account, op) => self.apply_account(account, op),
            ObjOp::Element(set, element, op) => self.apply_element(set, element, op),
            ObjOp::Counter(counter, op) => self.apply_counter(counter, op),
            ObjOp::Size(set) => Ok(ObjReply::Is(self.size(set))),
        }
    }

    fn apply_account(&mut self, account: u32, op: AccountOp) -> Result<ObjReply, Refusal>
        ensures step { IfOk result
            (λ reply. Step self.old (ObjOp.Account account op, reply) self.new) }
        ensures err { OnErr result (self.new ≡ self.old) }
        ensures growth { OnErr result (MakesObject self.old (ObjOp.Account account op)) }
        ensures refusal { IsOkUnless result Refusal.OutOfMemory }
    {
        let reply = self.accounts.apply(account, &op)?;
        Ok(reply)
    }

    fn apply_element(&mut self, set: u16, element: u32, op: ElementOp) -> Result<ObjReply, Refusal>
        ensures step { IfOk result
            (λ reply. Step self.old (ObjOp.Element set element op, reply) self.new) }
        ensures err { OnErr result (self.new ≡ self.old) }
        ensures growth { OnErr result (MakesObject self.old (ObjOp.Element set element op)) }
        ensures refusal { IsOkUnless result Refusal.OutOfMemory }
    {
        let before = self.elements.has(set, element);
        let (after, reply) = Element::apply(&before, &op);
        match (before, after) {
            (false, true) => self.elements.add(set, element)?,
            (true, false) => self.elements.remove(set, element),
            (false, false) | (true, true) => (),
        }
        Ok(reply)
    }

    fn apply_counter(&mut self, counter: u32, op: CounterOp) -> Result<ObjReply, Refusal>
        ensures step { IfOk result
            (λ reply. Step self.old (ObjOp.Counter counter op, reply) self.new) }
        ensures err { OnErr result (self.new ≡ self.old) }
        ensures growth { OnErr result (MakesObject self.old (ObjOp.Counter counter op)) }
        ensures refusal { IsOkUnless result Refusal.OutOfMemory }
    {
        let reply = self.counters.apply(counter, &op)?;
        Ok(reply)
    }

    // The text of the base, as `write_base` writes it. `OutOfMemory` is a growth that was refused.
    pub(crate) fn text(&self) -> Result<String, Refusal>
        ensures text { IfOk result (λ text. string_bytes text ≡ base_text self.now) }
        ensures refusal { IsOkUnless result Refusal.OutOfMemory }
    {
        let mut text = String::new(self.alloc);
        self.accounts.push_text(&mut text)?;
        self.elements.push_text(&mut text)?;
        self.counters.push_text(&mut text)?;
        Ok(text)
    }
}
