//! Why a line or a script is refused.
use fields_read::FieldFault;
use thiserror::Error;

/// Why a line is refused: the first cause, in the order that docs/SCRIPT.md gives. Want of memory may come in place of
/// any.
#[derive(Clone, Copy, Debug, PartialEq, Eq, Error)]
pub enum LineFault {
    /// The line has more than 1,048,576 bytes.
    #[error("LineTooLong")]
    LineTooLong,
    /// The line is not UTF-8, or no JSON text.
    #[error("NotJson")]
    NotJson,
    /// The line is no object, or a field may not have its value.
    #[error("BadValue")]
    BadValue,
    /// A field that must stand is missing.
    #[error("MissingField")]
    MissingField,
    /// A line that does this has no such field.
    #[error("UnknownField")]
    UnknownField,
    /// A field's value is a number that is no whole number of 64 bits.
    #[error("FloatNumber")]
    FloatNumber,
    /// No queue has the name.
    #[error("UnknownQueue")]
    UnknownQueue,
    /// The actor has no consumer of the name.
    #[error("UnknownConsumer")]
    UnknownConsumer,
    /// The message passes a limit.
    #[error("TooLong")]
    TooLong,
    /// A persistent message in a run without a journal.
    #[error("NoJournal")]
    NoJournal,
    /// An earlier line puts a message of this id to this queue.
    #[error("DoubleId")]
    DoubleId,
    /// The phase has 32 other actors before this one.
    #[error("TooManyActors")]
    TooManyActors,
    #[error("out of memory")]
    NoMemory,
}

/// The first line of a script that is refused, and why.
#[derive(Clone, Copy, Debug, PartialEq, Eq, Error)]
#[error("line {line}: {cause}")]
pub struct ScriptFault {
    pub line: u64,
    pub cause: LineFault,
}

impl From<FieldFault> for LineFault {
    ghost use Rattle.std.specs.Prelude.{◌≡◌};
    ghost use Rattle.script_read.specs.Causes.{of_field};

    ghost from_gives = { λ fault result. result ≡ of_field fault };

    fn from(fault: FieldFault) -> LineFault {
        match fault {
            FieldFault::UnknownField => LineFault::UnknownField,
            FieldFault::MissingField => LineFault::MissingField,
            FieldFault::FloatNumber => LineFault::FloatNumber,
            FieldFault::BadValue => LineFault::BadValue,
        }
    }
}
