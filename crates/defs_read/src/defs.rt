//! Definitions, as they were read.
ghost use Rattle.std.specs.Prelude.{◌≡◌, None};
ghost use Rattle.queue_model.specs.declared.queues.Policy.TheVariants as policy;
ghost use Rattle.defs_read.specs.Defined.{defined};

use byte_lists::Bytes;
use queue_model::{Limits, Policy};
use selector_read::Selector;

/// The queues of a run, in order of their definition: 1 to 16, with distinct names.
#[derive(Debug, Drop)]
pub struct Defs {
    pub queues: Vec<QueueDef>,
}

/// A queue: its name, what kind of queue it is, what it does when it is full, and its consumers in order.
#[derive(Debug, Drop)]
pub struct QueueDef {
    /// 1 to 64 bytes from 0x21 to 0x7E, none of them `#`.
    pub name: Bytes,
    pub kind: QueueKind,
    pub limits: Limits,
    pub consumers: Vec<ConsumerDef>,
}

/// In which order a queue gives its messages, and which it keeps.
#[derive(Debug, Drop)]
pub enum QueueKind {
    /// In order of arrival.
    Standard,
    /// The higher of so many priorities first, 1 to 10 of them.
    Priority(u32),
    /// By the header of this name, of 1 to 255 bytes.
    Sorted(Bytes),
    /// The last message alone of each value of the header of this name, of 1 to 255 bytes.
    LastValue(Bytes),
}

/// A consumer: its name, the actor whose lines may name it, its number among the consumers of all queues, from 0 in
/// order of their definition, and which messages it wants: without a selector all of them.
#[derive(Debug, Drop)]
pub struct ConsumerDef {
    pub name: Bytes,
    pub actor: Bytes,
    pub number: u32,
    pub selector: Option<Selector>,
}

impl QueueDef {
    /// A queue of this name, kind and these consumers, with all further fields at their defaults: no limits, and
    /// the policy NONE. Takes no memory.
    pub fn bare(name: Bytes, kind: QueueKind, consumers: Vec<ConsumerDef>) -> QueueDef
        ensures { defined result ≡ record { name = name; kind = kind; limits = record { policy = policy.None; entries = None; bytes = None }; consumers = consumers.items } }
    {
        QueueDef {
            name,
            kind,
            limits: Limits {
                policy: Policy::None,
                entries: None,
                bytes: None,
            },
            consumers,
        }
    }
}
