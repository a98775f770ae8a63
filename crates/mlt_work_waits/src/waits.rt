//! The graph.

ghost use Rattle.std.specs.Prelude.{ℕ, ◌≡◌, ◌++◌, ◌+◌, ◌≤◌, ◌⊎◌, ◌<◌, true, false, length, IfNone, IfSome};
ghost use Rattle.std.specs.Option.{option_copied};
ghost use Rattle.mlt_work_waits.specs.Waits.{CanJoin, CantJoin, Deadlocks, holder_in, holder_of, IsAcyclic, IsAwake, IsFor, IsYoungest, joined, LeadsTo, LeadToAwake, nobody_waits, others_in, released, wait_in, waits_of, wakers_in};

use crate::wait::{Awaited, Waiting, Wakers, Whose};
use arrayvec::ArrayVec;
use mlt_types::TxId;
use std::marker::Model;

/// Which transactions wait for which, at most 64 for locks of objects and 64 for locks of pages. It takes no memory. A
/// contract sees both lists. Nobody waits for two, or in a cycle.
#[derive(Drop)]
pub struct WaitsFor {
    objects: ArrayVec<Waiting, 64>,
    pages: ArrayVec<Waiting, 64>,
}

impl Model for WaitsFor {
    ghost use Rattle.mlt_work_waits.specs.Waits.{Waits, IsAcyclic};

    ghost Value = { Waits };

    ghost view = { λ graph. record { objects = graph.objects.items; pages = graph.pages.items } };

    ghost invariant = { λ graph.
        IsAcyclic (record { objects = graph.objects.items; pages = graph.pages.items }) };
}

impl WaitsFor {
    /// Nobody waits.
    #[tactic(auto, using(crate::proofs::Acyclic::nobody_is_acyclic))]
    pub fn new() -> WaitsFor
        ensures { result ≡ nobody_waits }
    {
        WaitsFor {
            objects: ArrayVec::new(),
            pages: ArrayVec::new(),
        }
    }

    /// How many wait, 0 to 128.
    pub fn count(&self) -> u64
        ensures count { result ≡ length self.now.objects + length self.now.pages }
        ensures fits { result ≤ 128 }
    {
        self.objects.len() as u64 + self.pages.len() as u64
    }

    /// Who waits for locks of objects, or for a turn, at most 64.
    pub fn objects(&self) -> &[Waiting]
        ensures waits { result.now ≡ self.now.objects }
        ensures most { length result.now ≤ 64 }
    {
        self.objects.as_slice()
    }

    /// Who waits for locks of pages, at most 64.
    pub fn pages(&self) -> &[Waiting]
        ensures waits { result.now ≡ self.now.pages }
        ensures most { length result.now ≤ 64 }
    {
        self.pages.as_slice()
    }

    /// Whether a transaction waits for nobody.
    pub fn is_awake(&self, tx: TxId) -> bool
        ensures awake { result ≡ true → IsAwake self.now tx }
        ensures waits { result ≡ false → (y : ℕ) × IsFor self.now tx y }
    {
        self.holder_of(tx).is_none()
    }

    /// The youngest wait of the cycle that this one would close with others for objects, if it would close one.
    pub fn youngest(&self, wait: &Waiting) -> Option<Waiting>
        ensures youngest { IfSome result (IsYoungest wait.now self.now) }
        ensures free { IfNone result (Deadlocks wait.now self.now → ⊥) }
    {
        let mut youngest = *wait;
        let mut at = wait.holder;
        // At most all others follow each other, and then comes the waiter.
        let most = self.objects.len() + 1;
        for _ in 0..most {
            if at == wait.waiter {
                return Some(youngest);
            }
            let Some(next) = wait_in(&self.objects, at) else {
                return None;
            };
            if next.is_younger(&youngest) {
                youngest = *next;
            }
            at = next.holder;
        }
        None
    }

    /// A transaction begins to wait. Where that would close a cycle it doesn't, and it doesn't where there is no room for
    /// one more, or where it waits already; then the answer is `false`.
    pub fn join(&mut self, awaited: Awaited, wait: Waiting) -> bool
        ensures can { result ≡ true → CanJoin awaited wait self.old }
        ensures joins { result ≡ true → self.new ≡ joined awaited wait self.old }
        ensures cant { result ≡ false → CantJoin awaited wait self.old }
        ensures stays { result ≡ false → self.new ≡ self.old }
        ensures awake { LeadToAwake self.new }
    {
        if !self.can_join(awaited, &wait) {
            return false;
        }
        match awaited {
            Awaited::Objects => self.objects.push(wait),
            Awaited::Pages => self.pages.push(wait),
        }
        true
    }

    /// Such waits end: those for one transaction, say, whose locks were given back. Their wakers join the others.
    pub fn release(&mut self, awaited: Awaited, whose: Whose, wakers: &mut Wakers)
        requires { length wakers.old.items ≤ 128 }
        ensures releases { self.new ≡ released awaited whose self.old }
        ensures wakes { wakers.new.items
            ≡ wakers.old.items ++ wakers_in whose (waits_of awaited self.old) }
        ensures few { length wakers.new.items ≤ length wakers.old.items + 64 }
        ensures awake { LeadToAwake self.new }
    {
        match awaited {
            Awaited::Objects => release_in(&mut self.objects, whose, wakers),
            Awaited::Pages => release_in(&mut self.pages, whose, wakers),
        }
    }

    /// Whether one more wait finds room, is the first of its transaction, and closes no cycle.
    fn can_join(&self, awaited: Awaited, wait: &Waiting) -> bool
        ensures can { IsAcyclic self.now → result ≡ true → CanJoin awaited wait.now self.now }
        ensures cant { IsAcyclic self.now → result ≡ false → CantJoin awaited wait.now self.now }
    {
        if self.is_full(awaited) {
            return false;
        }
        match self.holder_of(wait.waiter) {
            Some(_) => false,
            None => !self.leads(wait.holder, wait.waiter),
        }
    }

    /// Whether there is no room for one more wait for such locks.
    fn is_full(&self, awaited: Awaited) -> bool
        ensures full { result ≡ true → length (waits_of awaited self.now) ≡ 64 }
        ensures room { result ≡ false → length (waits_of awaited self.now) < 64 }
    {
        match awaited {
            Awaited::Objects => self.objects.is_full(),
            Awaited::Pages => self.pages.is_full(),
        }
    }

    /// For whom a transaction waits, if it does.
    fn holder_of(&self, waiter: TxId) -> Option<TxId>
        ensures { result ≡ holder_of self.now waiter }
    {
        holder_in(&self.objects, waiter).or(holder_in(&self.pages, waiter))
    }

    /// Whether the waits lead from one transaction to another. No more follow each other than there are.
    fn leads(&self, from: TxId, to: TxId) -> bool
        ensures leads { IsAcyclic self.now → LeadsTo self.now from to → result ≡ true }
        ensures cause { IsAcyclic self.now → result ≡ true → LeadsTo self.now from to }
    {
        let mut at = from;
        for _ in 0..=self.count() {
            if at == to {
                return true;
            }
            match self.holder_of(at) {
                Some(holder) => at = holder,
                None => return false,
            }
        }
        true
    }
}

/// Takes away the waits that end, and adds their wakers to the others.
fn release_in(waits: &mut ArrayVec<Waiting, 64>, whose: Whose, wakers: &mut Wakers)
    requires { length wakers.old.items ≤ 128 }
    ensures releases { waits.new.items ≡ others_in whose waits.old.items }
    ensures wakes { wakers.new.items ≡ wakers.old.items ++ wakers_in whose waits.old.items }
    ensures few { length wakers.new.items ≤ length wakers.old.items + 64 }
{
    if waits.is_empty() {
        return;
    }
    add_wakers(waits, whose, wakers);
    waits.retain(|wait| !wait.is_for(whose));
}

/// Adds the wakers of the waits that end to the others.
fn add_wakers(waits: &[Waiting], whose: Whose, wakers: &mut Wakers)
    requires few { length waits.now ≤ 64 }
    requires room { length wakers.old.items ≤ 128 }
    ensures wakes { wakers.new.items ≡ wakers.old.items ++ wakers_in whose waits.now }
    ensures few { length wakers.new.items ≤ length wakers.old.items + length waits.now }
{
    for wait in waits {
        // A copy: the prover takes what is passed by value as moved.
        let given = whose;
        if wait.is_for(given) {
            wakers.push(wait.waker);
        }
    }
}

/// For whom a transaction waits, if one of these is a wait of it.
fn holder_in(waits: &[Waiting], waiter: TxId) -> Option<TxId>
    ensures { result ≡ holder_in waits.now waiter }
{
    waits
        .iter()
        .find(|wait| wait.waiter == waiter)
        .map(|wait| wait.holder)
}

/// The first of these that is a wait of a transaction.
fn wait_in(waits: &[Waiting], waiter: TxId) -> Option<&Waiting>
    ensures { option_copied result ≡ wait_in waits.now waiter }
{
    waits.iter().find(|wait| wait.waiter == waiter)
}
