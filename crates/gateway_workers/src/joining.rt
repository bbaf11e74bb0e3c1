//! The passes of workers: split off the first ones, and joined to them again.

ghost use Rattle.std.specs.Prelude.{◌≡◌, ◌≤◌, [], length, vec_capacity, OnOk, All};
ghost use Rattle.account_shared.specs.Views.{Belongs, IsIdle};
ghost use Rattle.gateway_workers.specs.Joins.{SplitsTo, JoinsAll};

use account_shared::Passes;
use gateway_connections::Gate;
use std::alloc::{AllocError, Global};
use std::sync::Wait;

/// Splits so many passes off the first ones, or fewer where memory was wanting.
pub(crate) fn split_all(
    gate: &Gate,
    alloc: Global,
    passes: &mut Passes,
    split: &mut Vec<Passes>,
    count: usize,
) -> Result<(), AllocError>
    requires belong { Belongs passes.old gate.now.accounts }
    requires first { passes.old.label.name ≡ 0 }
    requires none { split.old.items ≡ [] }
    requires room { count ≤ vec_capacity split.old }
    ensures belong { Belongs passes.new gate.now.accounts }
    ensures theirs { All (λ p. Belongs p gate.now.accounts) split.new.items }
    ensures splits { SplitsTo passes.old split.new.items passes.new }
    ensures count { OnOk result (length split.new.items ≡ count) }
    ensures room { vec_capacity split.new ≡ vec_capacity split.old }
{
    'splits: while split.len() < count {
        let next = gate.split(alloc, passes)?;
        split.push_reserved(next);
    }
    Ok(())
}

/// Joins all passes to the first ones, the last of them first.
pub(crate) fn join_all<R: Wait>(gate: &Gate, rt: &R, passes: &mut Passes, split: &mut Vec<Passes>)
    requires belong { Belongs passes.old gate.now.accounts }
    requires first { passes.old.label.name ≡ 0 }
    requires theirs { All (λ p. Belongs p gate.now.accounts) split.old.items }
    requires idle { All IsIdle split.old.items }
    ensures belong { Belongs passes.new gate.now.accounts }
    ensures joins { JoinsAll passes.old split.old.items passes.new }
    ensures none { split.new.items ≡ [] }
{
    'joins: loop {
        match split.pop() {
            Some(other) => gate.join(rt, passes, other),
            None => return,
        }
    }
}
