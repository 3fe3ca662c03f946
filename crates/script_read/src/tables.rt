//! What a line may do, and the fields that it has for that.
ghost use Rattle.std.specs.Prelude.{◌≡◌, ◌∷◌};
ghost use Rattle.fields_read.specs.declared.fields.Field.TheVariants.{Do};
ghost use Rattle.script_read.specs.Tables.{fields_of, message_fields, message_required, required_of, verb_named};

use fields_read::Field;

/// What a line does.
#[derive(Clone, Copy, Debug, PartialEq, Eq)]
pub(crate) enum Verb {
    Put,
    Take,
    Close,
    Ack,
    Release,
    Lock,
    Unlock,
    Steal,
    Begin,
    Commit,
    Rollback,
    Rest,
}

/// The fields of the lines: `do`, and those behind it in order.
const PUT: [Field; 8] = [
    Field::Do,
    Field::Actor,
    Field::Queue,
    Field::Id,
    Field::Persistent,
    Field::Priority,
    Field::Headers,
    Field::Body,
];

const OF_CONSUMER: [Field; 3] = [Field::Do, Field::Actor, Field::Consumer];

const OF_ENTRY: [Field; 4] = [Field::Do, Field::Actor, Field::Queue, Field::Id];

const OF_ACTOR: [Field; 2] = [Field::Do, Field::Actor];

/// The fields of a message that stands by itself, and those that must stand.
pub(crate) const MESSAGE: [Field; 5] = [
    Field::Id,
    Field::Persistent,
    Field::Priority,
    Field::Headers,
    Field::Body,
];

pub(crate) const MESSAGE_REQUIRED: [Field; 1] = [Field::Id];

impl Verb {
    /// What the text says that a line does; none where it says nothing that a line may do.
    pub(crate) fn named(text: &str) -> Option<Verb>
        ensures { result ≡ verb_named text.now }
    {
        match text {
            "put" => Some(Verb::Put),
            "take" => Some(Verb::Take),
            "close" => Some(Verb::Close),
            "ack" => Some(Verb::Ack),
            "release" => Some(Verb::Release),
            "lock" => Some(Verb::Lock),
            "unlock" => Some(Verb::Unlock),
            "steal" => Some(Verb::Steal),
            "begin" => Some(Verb::Begin),
            "commit" => Some(Verb::Commit),
            "rollback" => Some(Verb::Rollback),
            "rest" => Some(Verb::Rest),
            _ => None,
        }
    }

    /// The fields that such a line may have, in order. The first is `do`.
    pub(crate) fn fields(self) -> &'static [Field]
        ensures { result.now ≡ Do ∷ fields_of self }
    {
        match self {
            Verb::Put => &PUT,
            Verb::Take | Verb::Close => &OF_CONSUMER,
            Verb::Ack | Verb::Release | Verb::Lock | Verb::Unlock | Verb::Steal => &OF_ENTRY,
            Verb::Begin | Verb::Commit | Verb::Rollback => &OF_ACTOR,
            Verb::Rest => &OF_ACTOR[..1],
        }
    }

    /// The fields that must stand besides `do`.
    pub(crate) fn required(self) -> &'static [Field]
        ensures { result.now ≡ required_of self }
    {
        match self {
            Verb::Put | Verb::Steal => &OF_ENTRY[1..],
            Verb::Take | Verb::Close => &OF_CONSUMER[1..],
            Verb::Ack | Verb::Release | Verb::Lock | Verb::Unlock => &OF_ENTRY[1..3],
            Verb::Begin | Verb::Commit | Verb::Rollback => &OF_ACTOR[1..],
            Verb::Rest => &[],
        }
    }
}
