//! The fields of the objects of definitions.
ghost use Rattle.std.specs.Prelude.{◌≡◌, option_map};
ghost use Rattle.defs_read.specs.Tables.{later_fields, line_fields, queue_fields, required_fields, type_named};

use fields_read::Field;

/// The type of a queue, as its object says it.
#[derive(Clone, Copy, Debug, PartialEq, Eq)]
pub(crate) enum QueueType {
    Standard,
    Priority,
    Sorted,
    LastValue,
}

/// The one field of the line.
pub(crate) const LINE: [Field; 1] = [Field::Queues];

/// The fields of a consumer, in order, and those of them that must stand.
pub(crate) const CONSUMER: [Field; 3] = [Field::Name, Field::Actor, Field::Selector];

pub(crate) const REQUIRED_CONSUMER: [Field; 2] = [Field::Name, Field::Actor];

/// The fields of a queue of each type, in order: the name, and those behind it.
const STANDARD: [Field; 6] = [
    Field::Name,
    Field::Kind,
    Field::MaximumMessages,
    Field::MaximumBytes,
    Field::OverflowPolicy,
    Field::Consumers,
];

const PRIORITY: [Field; 7] = [
    Field::Name,
    Field::Kind,
    Field::Priorities,
    Field::MaximumMessages,
    Field::MaximumBytes,
    Field::OverflowPolicy,
    Field::Consumers,
];

const SORTED: [Field; 7] = [
    Field::Name,
    Field::Kind,
    Field::SortKey,
    Field::MaximumMessages,
    Field::MaximumBytes,
    Field::OverflowPolicy,
    Field::Consumers,
];

const LAST_VALUE: [Field; 7] = [
    Field::Name,
    Field::Kind,
    Field::LvqKey,
    Field::MaximumMessages,
    Field::MaximumBytes,
    Field::OverflowPolicy,
    Field::Consumers,
];

impl QueueType {
    /// The type with this name; without one, or where no type has the name, the standard one.
    pub(crate) fn named(name: Option<&str>) -> QueueType
        ensures { result ≡ type_named (option_map (λ s. s.now) name.entry) }
    {
        match name {
            Some("priority") => QueueType::Priority,
            Some("sorted") => QueueType::Sorted,
            Some("lvq") => QueueType::LastValue,
            _ => QueueType::Standard,
        }
    }

    /// The fields that a queue of this type may have, in order. The first is its name.
    pub(crate) fn fields(self) -> &'static [Field]
        ensures { result.now ≡ queue_fields self }
    {
        match self {
            QueueType::Standard => &STANDARD,
            QueueType::Priority => &PRIORITY,
            QueueType::Sorted => &SORTED,
            QueueType::LastValue => &LAST_VALUE,
        }
    }

    /// The fields that must stand in a queue of this type.
    pub(crate) fn required(self) -> &'static [Field]
        ensures { result.now ≡ required_fields self }
    {
        match self {
            QueueType::Sorted => &[Field::Name, Field::SortKey],
            _ => &[Field::Name],
        }
    }
}
