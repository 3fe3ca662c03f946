//! Queues that are made and closed, and their passes, which are split off and joined.
ghost use Rattle.std.specs.Prelude.{◌≡◌, ◌<◌, ◌≤◌, IfOk, vec_len, map};
ghost use Rattle.std.specs.List.{AllByRecursion};
ghost use Rattle.acts_core.specs.Asked.{KeyFits};
ghost use Rattle.acts_core.specs.Rest.{left_of};
ghost use Rattle.defs_read.specs.Allowed.{HasPriorities};
ghost use Rattle.defs_read.specs.Slips.{lists_of};
ghost use Rattle.any_queue.specs.Kinds.{build_in, sight_in, ServesAny};
ghost use Rattle.any_queue.specs.Parting.{AllMayStart, StartsApart, IsFresh, MayPart, IsSplit, IsJoined, IsLast, IsClosed, kind_of};

use crate::held::{close_held, join_held, make_last_value, make_sorted, split_held};
use crate::kinds::{AnyPass, AnyQueue};
use crate::lists::{close_listed, join_listed, make_listed, split_listed};
use acts_core::{Cargo, RestEntry};
use byte_lists::NoMemory;
use defs_read::{QueueDef, QueueKind};
use queue_model::Slip;
use std::alloc::Global;
use std::sync::Wait;

impl<C: Cargo, R: Wait + Drop> AnyQueue<C, R> {
    /// Makes a queue of room for so many rows, which starts with these entries, available and in their order, and the
    /// pass of its boss, which has all consumers and may reserve and draw what the entries leave. The calls of a sorted
    /// or a last-value queue wait by the handle. Without memory the entries are dropped.
    pub fn make(
        rt: R,
        alloc: Global,
        def: &QueueDef,
        rows: u64,
        start: Vec<(Slip, C)>,
    ) -> Result<(AnyQueue<C, R>, AnyPass), NoMemory>
        requires lists { HasPriorities def.now.kind }
        requires rows { (0 < rows) × (rows ≤ 524288) }
        requires consumers { vec_len def.now.consumers ≤ 64 }
        requires room { vec_len start ≤ rows }
        requires start { AllMayStart C.load (kind_of def.now.kind) (lists_of def.now.kind)
            (vec_len def.now.consumers) start.items }
        requires apart { StartsApart (kind_of def.now.kind) start.items }
        ensures serves { IfOk result (λ r. ServesAny r.0 r.1) }
        ensures fresh { IfOk result (λ r. IsFresh C.load (kind_of def.now.kind)
            (lists_of def.now.kind) rows (vec_len def.now.consumers) start.items
            (build_in r.0) (sight_in r.1)) }
    {
        let consumers = def.consumers.len() as u32;
        match &def.kind {
            QueueKind::Standard => {
                let (entries, boss) = make_listed(alloc, 1, rows, consumers, start)?;
                Ok((AnyQueue::Listed(entries), AnyPass::Listed(boss)))
            }
            QueueKind::Priority(lists) => {
                let (entries, boss) = make_listed(alloc, *lists, rows, consumers, start)?;
                Ok((AnyQueue::Listed(entries), AnyPass::Listed(boss)))
            }
            QueueKind::Sorted(_) => {
                let (held, boss) = make_sorted(rt, alloc, rows, consumers, start)?;
                Ok((AnyQueue::Sorted(held), AnyPass::Held(boss)))
            }
            QueueKind::LastValue(_) => {
                let (held, boss) = make_last_value(rt, alloc, rows, consumers, start)?;
                Ok((AnyQueue::LastValue(held), AnyPass::Held(boss)))
            }
        }
    }

    /// Splits the pass of a new caller off the boss's, with these of its consumers, and with so many entries that it may
    /// reserve and rows that it may draw.
    pub fn split(&self, boss: &mut AnyPass, consumers: &[u32], allowance: u64) -> AnyPass
        requires serves { ServesAny self.now boss.old }
        requires may { MayPart (sight_in boss.old) consumers.now allowance }
        ensures serves { ServesAny self.now boss.new × ServesAny self.now result }
        ensures split { IsSplit (sight_in boss.old) (sight_in boss.new) (sight_in result)
            consumers.now allowance }
    {
        match self {
            AnyQueue::Listed(entries) => match boss {
                AnyPass::Listed(boss) => {
                    AnyPass::Listed(split_listed(entries, boss, consumers, allowance))
                }
                AnyPass::Held(_) => unreachable!(),
            },
            AnyQueue::Sorted(held) => match boss {
                AnyPass::Held(boss) => {
                    AnyPass::Held(split_held(held, boss, consumers, allowance))
                }
                AnyPass::Listed(_) => unreachable!(),
            },
            AnyQueue::LastValue(held) => match boss {
                AnyPass::Held(boss) => {
                    AnyPass::Held(split_held(held, boss, consumers, allowance))
                }
                AnyPass::Listed(_) => unreachable!(),
            },
        }
    }

    /// Ends `gone`. `into` then speaks for its callers, and has what it had.
    pub fn join(&self, into: &mut AnyPass, gone: AnyPass)
        requires into { ServesAny self.now into.old }
        requires gone { ServesAny self.now gone }
        requires history { (sight_in gone).opening ≡ (sight_in into.old).opening }
        ensures serves { ServesAny self.now into.new }
        ensures joined { IsJoined (sight_in into.old) (sight_in gone) (sight_in into.new) }
    {
        match self {
            AnyQueue::Listed(entries) => match into {
                AnyPass::Listed(into) => match gone {
                    AnyPass::Listed(gone) => join_listed(entries, into, gone),
                    AnyPass::Held(_) => unreachable!(),
                },
                AnyPass::Held(_) => unreachable!(),
            },
            AnyQueue::Sorted(held) => match into {
                AnyPass::Held(into) => match gone {
                    AnyPass::Held(gone) => join_held(held, into, gone),
                    AnyPass::Listed(_) => unreachable!(),
                },
                AnyPass::Listed(_) => unreachable!(),
            },
            AnyQueue::LastValue(held) => match into {
                AnyPass::Held(into) => match gone {
                    AnyPass::Held(gone) => join_held(held, into, gone),
                    AnyPass::Listed(_) => unreachable!(),
                },
                AnyPass::Listed(_) => unreachable!(),
            },
        }
    }

    /// Takes the queue apart: all its rows that are not deleted, in queue order. On a last-value queue each tells whether a
    /// later one of its key has come. On a listed queue they have no keys.
    pub fn close(self, boss: AnyPass) -> Vec<RestEntry<C>>
        requires serves { ServesAny self boss }
        requires last { IsLast (sight_in boss) }
        ensures closed { IsClosed (build_in self).kind (sight_in boss)
            (map (left_of C.load) result.items) }
        ensures keys { AllByRecursion (λ e. KeyFits (build_in self).kind e.slip.key) result.items }
    {
        match self {
            AnyQueue::Listed(entries) => match boss {
                AnyPass::Listed(boss) => close_listed(entries, boss.pass),
                AnyPass::Held(_) => unreachable!(),
            },
            AnyQueue::Sorted(held) => match boss {
                AnyPass::Held(boss) => close_held(Box::into_inner(held), boss),
                AnyPass::Listed(_) => unreachable!(),
            },
            AnyQueue::LastValue(held) => match boss {
                AnyPass::Held(boss) => close_held(Box::into_inner(held), boss),
                AnyPass::Listed(_) => unreachable!(),
            },
        }
    }
}
