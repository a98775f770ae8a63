//! The accounts of a base, in an ordered map.

ghost use Rattle.std.specs.Prelude.{◌≡◌, ◌++◌, None, Some, IsOkUnless, IfNone, IfOk, IfSome, OnErr, OnOk};
ghost use Rattle.std.specs.FinMap as map;
ghost use Rattle.std.specs.String.{string_bytes};
ghost use Rattle.mlt_types.specs.Maps.{with_entry};
ghost use Rattle.mlt_object_base.specs.BaseText.{account_lines};
ghost use Rattle.mlt_object_base.specs.Kept.{DoesAt};
ghost use Rattle.mlt_object_kinds.specs.Accounts.{AccountStep, IsAccount};

use crate::text::push_accounts;
use mlt_object_kinds::{Account, AccountOp, Kind, ObjReply};
use mlt_types::Refusal;
use std::alloc::Global;
use std::collections::BTreeMap;
use std::marker::Model;

// Executes an operation on a balance that is kept, and returns its reply; `None` if that is Closed, and then nothing is
// done.
fn change(balance: &mut u64, op: &AccountOp) -> Option<ObjReply>
    requires { IsAccount (Some balance.old) }
    ensures some { IfSome result
        (λ reply. AccountStep (Some balance.old) op.now reply (Some balance.new)) }
    ensures none { IfNone result (AccountStep (Some balance.old) op.now ObjReply.Closed None) }
{
    match Account::apply(&Some(*balance), op) {
        (Some(changed), reply) => {
            *balance = changed;
            Some(reply)
        }
        (None, _) => None,
    }
}

// The balances of the accounts that there are, by their numbers. A contract sees a finite map.
#[derive(Drop)]
pub(crate) struct Accounts {
    balances: BTreeMap<u32, u64>,
}

impl Model for Accounts {
    ghost use Rattle.std.specs.Prelude.{ℕ};
    ghost use Rattle.std.specs.Coded.{coded_ℕ};
    ghost use Rattle.std.specs.FinMap as map;
    ghost use Rattle.std.specs.Ordering.{nat_cmp};
    ghost use Rattle.mlt_object_base.specs.Kept.{AreBalances};

    ghost Value = { map.FinMap nat_cmp ℕ };

    ghost coded = { map.code coded_ℕ coded_ℕ };

    ghost view = { λ a. map.from_entries a.balances.entries };

    ghost invariant = { λ a. AreBalances a.balances.entries };
}

#[tactic(auto, using(crate::proofs::Maps::number_in_map, crate::proofs::Maps::number_map_updated))]
impl Accounts {
    pub(crate) fn new(alloc: Global) -> Accounts
        ensures { result ≡ map.empty }
    {
        Accounts {
            balances: BTreeMap::new(alloc),
        }
    }

    pub(crate) fn balance(&self, account: u32) -> Option<u64>
        ensures state { result ≡ map.get self.now account }
        ensures in_range { IsAccount result }
    {
        self.balances.get(&account).copied()
    }

    // Executes an operation on an account that does not exist, and returns its reply.
    fn open(&mut self, account: u32, op: &AccountOp) -> Result<ObjReply, Refusal>
        requires { map.get self.old account ≡ None }
        ensures done { IfOk result (λ reply. DoesAt self.old account op.now reply self.new) }
        ensures err { OnErr result (self.new ≡ self.old) }
        ensures growth { OnErr result (op.now ≡ AccountOp.Open) }
        ensures refusal { IsOkUnless result Refusal.OutOfMemory }
    {
        let (after, reply) = Account::apply(&None, op);
        if let Some(balance) = after {
            self.balances.insert(account, balance)?;
        }
        Ok(reply)
    }

    // Executes an operation, and returns its reply. An account that exists is searched for once, unless it is closed.
    pub(crate) fn apply(&mut self, account: u32, op: &AccountOp) -> Result<ObjReply, Refusal>
        ensures done { IfOk result (λ reply. DoesAt self.old account op.now reply self.new) }
        ensures err { OnErr result (self.new ≡ self.old) }
        ensures growth { OnErr result
            ((map.get self.old account ≡ None) × (op.now ≡ AccountOp.Open)) }
        ensures refusal { IsOkUnless result Refusal.OutOfMemory }
    {
        let Some(balance) = self.balances.get_mut(&account) else {
            return self.open(account, op);
        };
        if let Some(reply) = change(balance, op) {
            return Ok(reply);
        }
        self.balances.remove(&account);
        Ok(ObjReply::Closed)
    }

    // Gives an account a balance, whether it is there or not. It is searched for once.
    pub(crate) fn put(&mut self, account: u32, balance: u64) -> Result<(), Refusal>
        requires { IsAccount (Some balance) }
        ensures put { OnOk result (self.new ≡ with_entry self.old account (Some balance)) }
        ensures err { OnErr result (self.new ≡ self.old) }
        ensures growth { OnErr result (map.get self.old account ≡ None) }
        ensures refusal { IsOkUnless result Refusal.OutOfMemory }
    {
        self.balances.insert(account, balance)?;
        Ok(())
    }

    // Appends a line `account A b` for each account, by rising number.
    pub(crate) fn push_text(&self, text: &mut String) -> Result<(), Refusal>
        ensures text { OnOk result
            (string_bytes text.new ≡ string_bytes text.old ++ account_lines self.now) }
        ensures refusal { IsOkUnless result Refusal.OutOfMemory }
    {
        push_accounts(text, &self.balances)
    }
}
