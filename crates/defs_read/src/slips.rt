//! Slips: what a queue knows of a message without reading it.
ghost use Rattle.std.specs.Prelude.{◌≡◌, ◌<◌, ◌≤◌, ◌↔◌, ◌^◌, IfOk, IsTrue, length, option_map};
ghost use Rattle.queue_model.specs.Table.{FitsQueue};
ghost use Rattle.message_core.specs.Spelling.{value_of};
ghost use Rattle.defs_read.specs.Allowed.{GivesSlips, HasPriorities};
ghost use Rattle.defs_read.specs.Causes.{most_consumers};
ghost use Rattle.defs_read.specs.Defined.{defined};
ghost use Rattle.defs_read.specs.Slips.{HasNoKey, IsMask, IsSlip, Wants, key_of, list_among, list_of, lists_of, text_in};

use crate::defs::{ConsumerDef, QueueDef, QueueKind};
use byte_lists::{Bytes, NoMemory};
use message_core::{HeaderValue, Message};
use queue_model::Slip;
use selector_eval::{Truth, truth};
use std::alloc::Global;

/// Whether the consumer wants the message.
fn wants(consumer: &ConsumerDef, message: &Message) -> bool
    ensures { IsTrue result ↔ Wants consumer.now.selector message.now }
{
    match &consumer.selector {
        Some(selector) => truth(selector, message) == Truth::True,
        None => true,
    }
}

/// Which consumers of a queue want the message: bit c tells of consumer c, counted from 0 in the queue.
fn mask_of(consumers: &[ConsumerDef], message: &Message) -> u64
    requires { length consumers.now ≤ most_consumers }
    ensures mask { IsMask result consumers.now message.now }
    ensures narrow { result < 2 ^ length consumers.now }
{
    let mut mask = 0;
    for (index, consumer) in consumers.iter().enumerate() {
        if wants(consumer, message) {
            mask |= 1 << index;
        }
    }
    mask
}

/// Of so many lists the one for this priority.
fn list_among(lists: u32, priority: u8) -> u32
    requires some { 1 ≤ lists }
    requires few { lists ≤ 10 }
    ensures { result ≡ list_among lists priority }
{
    let below = 5 - lists.div_ceil(2);
    u32::from(priority).saturating_sub(below).min(lists - 1)
}

/// The list that a message of this priority goes into.
fn list_of(kind: &QueueKind, priority: u8) -> u32
    requires { HasPriorities kind.now }
    ensures list { result ≡ list_of kind.now priority }
    ensures there { result < lists_of kind.now }
{
    match kind {
        QueueKind::Priority(lists) => list_among(*lists, priority),
        QueueKind::Standard | QueueKind::Sorted(_) | QueueKind::LastValue(_) => 0,
    }
}

/// A copy of the text of the header with this name; none where there is none, or it is no text.
fn text_of(alloc: Global, message: &Message, name: &[u8]) -> Result<Option<Bytes>, NoMemory>
    ensures { IfOk result (λ text. text ≡ text_in (value_of name.now message.now.headers)) }
{
    match message.header(name) {
        Some(HeaderValue::Text(text)) => Ok(Some(Bytes::of(alloc, text.as_slice())?)),
        _ => Ok(None),
    }
}

/// The text that the queue goes by.
fn key_of(alloc: Global, kind: &QueueKind, message: &Message) -> Result<Option<Bytes>, NoMemory>
    ensures { IfOk result (λ key. key ≡ key_of kind.now message.now) }
{
    match kind {
        QueueKind::Sorted(name) | QueueKind::LastValue(name) => text_of(
            alloc,
            message,
            name.as_slice(),
        ),
        QueueKind::Standard | QueueKind::Priority(_) => Ok(None),
    }
}

/// The slip of the message in the queue. Takes memory for the key alone, and refuses only for want of it.
pub fn slip(alloc: Global, def: &QueueDef, message: &Message) -> Result<Slip, NoMemory>
    requires { GivesSlips (defined def.now) }
    ensures slip { IfOk result (λ slip. IsSlip (defined def.now) message.now slip) }
    ensures fits { IfOk result (FitsQueue (lists_of def.now.kind) (length def.now.consumers.items)) }
    ensures key { IfOk result (λ slip. HasNoKey def.now.kind slip.key) }
{
    let key = key_of(alloc, &def.kind, message)?;
    Ok(Slip {
        id: message.id(),
        size: message.size(),
        mask: mask_of(&def.consumers, message),
        list: list_of(&def.kind, message.priority()),
        key,
    })
}
