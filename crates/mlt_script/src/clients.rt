//! Scripts by their clients.

ghost use Rattle.std.specs.Prelude.{◌≡◌, ◌<◌, ◌++◌, [], map, reverse, replicate, IfOk, IsOkUnless, OnOk};
ghost use Rattle.mlt_script.specs.Clients.{AreFilled, if_any, parts_of};

use crate::script::Script;
use mlt_types::Refusal;
use std::alloc::{AllocError, Global};

/// An empty list for each client.
fn empty_table(alloc: Global) -> Result<Vec<Vec<Script>>, AllocError>
    ensures { IfOk result (λ table. map (λ list. list.items) table.items ≡ replicate 1000 []) }
{
    let mut table = Vec::new(alloc);
    while table.len() < 1_000 {
        table.push(Vec::new(alloc))?;
    }
    Ok(table)
}

/// Puts each script at the end of its client's list, the last script first.
fn fill(table: &mut Vec<Vec<Script>>, scripts: Vec<Script>) -> Result<(), AllocError>
    requires { map (λ list. list.items) table.old.items ≡ replicate 1000 [] }
    ensures { OnOk result (AreFilled scripts.items (map (λ list. list.items) table.new.items)) }
{
    let mut rest = scripts;
    while let Some(script) = rest.pop() {
        let client = usize::from(script.client());
        table[client].push(script)?;
    }
    Ok(())
}

/// Adds a client's scripts, if there are any, which came the last one first.
fn push_part(parts: &mut Vec<Vec<Script>>, part: Vec<Script>) -> Result<(), AllocError>
    ensures { OnOk result
        (map (λ list. list.items) parts.new.items
        ≡ map (λ list. list.items) parts.old.items ++ if_any (reverse part.items)) }
{
    let mut part = part;
    if part.is_empty() {
        return Ok(());
    }
    part.reverse();
    parts.push(part)?;
    Ok(())
}

/// The scripts of each client, by rising client number. The scripts of a client keep their order.
///
/// # Errors
/// `OutOfMemory`, where a growth was refused.
pub fn by_client(alloc: Global, scripts: Vec<Script>) -> Result<Vec<Vec<Script>>, Refusal>
    ensures parts { IfOk result
        (λ parts. map (λ part. part.items) parts.items ≡ parts_of scripts.items) }
    ensures refusal { IsOkUnless result Refusal.OutOfMemory }
{
    let mut table = empty_table(alloc)?;
    fill(&mut table, scripts)?;
    let mut parts = Vec::new(alloc);
    while let Some(part) = table.pop() {
        push_part(&mut parts, part)?;
    }
    parts.reverse();
    Ok(parts)
}
