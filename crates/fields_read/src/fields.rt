//! The fields: how each is called, and what its value may be.
ghost use Rattle.std.specs.Prelude.{◌≡◌};
ghost use Rattle.serde_json.specs.View.{view};
ghost use Rattle.fields_read.specs.Fields.{accepts, name_of};

use crate::forms::{
    are_headers, is_limit, is_list_of, is_name, is_policy, is_text_within, is_type, is_whole,
};
use crate::limits::{LONGEST_KEY, MOST_PRIORITIES, MOST_QUEUES, TOP_PRIORITY};
use serde_json::Value;

/// A field of definitions or of a script line. Fields of one name are one field.
#[derive(Clone, Copy, Debug, PartialEq, Eq)]
pub enum Field {
    /// `queues`: a list of 1 to 16 values.
    Queues,
    /// `name`: a name.
    Name,
    /// `type`: the type of a queue.
    Kind,
    /// `priorities`: 1 to 10.
    Priorities,
    /// `sortKey`: a text of 1 to 255 bytes.
    SortKey,
    /// `lvqKey`: a text of 1 to 255 bytes.
    LvqKey,
    /// `maximumQueueDepthMessages`: -1 for no limit, or 1 to 1,099,511,627,776.
    MaximumMessages,
    /// `maximumQueueDepthBytes`: -1 for no limit, or 1 to 1,099,511,627,776.
    MaximumBytes,
    /// `overflowPolicy`: what happens to a message that is over a limit.
    OverflowPolicy,
    /// `consumers`: a list.
    Consumers,
    /// `actor`: a name.
    Actor,
    /// `selector`: a text. Which texts are selectors is not known here.
    Selector,
    /// `do`: a text. Which texts say what a line does is not known here.
    Do,
    /// `queue`: a name.
    Queue,
    /// `consumer`: a name.
    Consumer,
    /// `id`: 0 to 18,446,744,073,709,551,615.
    Id,
    /// `persistent`: true or false.
    Persistent,
    /// `priority`: 0 to 9.
    Priority,
    /// `headers`: an object of texts, truth values and whole numbers of 64 bits with a sign.
    Headers,
    /// `body`: a text.
    Body,
}

impl Field {
    /// The field's name in an object.
    pub fn name(self) -> &'static str
        ensures { result.now ≡ name_of self }
    {
        match self {
            Field::Queues => "queues",
            Field::Name => "name",
            Field::Kind => "type",
            Field::Priorities => "priorities",
            Field::SortKey => "sortKey",
            Field::LvqKey => "lvqKey",
            Field::MaximumMessages => "maximumQueueDepthMessages",
            Field::MaximumBytes => "maximumQueueDepthBytes",
            Field::OverflowPolicy => "overflowPolicy",
            Field::Consumers => "consumers",
            Field::Actor => "actor",
            Field::Selector => "selector",
            Field::Do => "do",
            Field::Queue => "queue",
            Field::Consumer => "consumer",
            Field::Id => "id",
            Field::Persistent => "persistent",
            Field::Priority => "priority",
            Field::Headers => "headers",
            Field::Body => "body",
        }
    }

    /// Whether the field may have this value.
    pub fn accepts(self, value: &Value) -> bool
        ensures { result ≡ accepts self (view value.now) }
    {
        match self {
            Field::Queues => is_list_of(value, MOST_QUEUES),
            Field::Name | Field::Actor | Field::Queue | Field::Consumer => is_name(value),
            Field::Kind => is_type(value),
            Field::Priorities => is_whole(value, 1, MOST_PRIORITIES),
            Field::SortKey | Field::LvqKey => is_text_within(value, 1, LONGEST_KEY),
            Field::MaximumMessages | Field::MaximumBytes => is_limit(value),
            Field::OverflowPolicy => is_policy(value),
            Field::Consumers => value.is_array(),
            Field::Id => is_whole(value, 0, u64::MAX),
            Field::Persistent => value.is_boolean(),
            Field::Priority => is_whole(value, 0, TOP_PRIORITY),
            Field::Headers => are_headers(value),
            Field::Selector | Field::Do | Field::Body => value.is_string(),
        }
    }
}
