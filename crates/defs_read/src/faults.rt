//! Why a line is no definitions.
use fields_read::FieldFault;
use selector_read::Kind;
use thiserror::Error;

/// Why a line is no definitions: the first cause, in the order that docs/SCRIPT.md gives. Want of memory may come in
/// place of any.
#[derive(Clone, Copy, Debug, PartialEq, Eq, Error)]
pub enum DefsFault {
    /// The line has more than 1,048,576 bytes.
    #[error("LineTooLong")]
    LineTooLong,
    /// The line is not UTF-8, or no JSON text.
    #[error("NotJson")]
    NotJson,
    /// A field is not known here, or not for this type of queue.
    #[error("UnknownField")]
    UnknownField,
    /// A field that must stand is missing.
    #[error("MissingField")]
    MissingField,
    /// A field's value is a number that is no whole number of 64 bits.
    #[error("FloatNumber")]
    FloatNumber,
    /// A field may not have its value, or something is no object.
    #[error("BadValue")]
    BadValue,
    /// The text of a field `selector` is no selector: its first fault, and the byte of the text at which it stands,
    /// counted from 0 (docs/SELECTORS.md).
    #[error("BadSelector at {at}: {kind}")]
    BadSelector { at: u64, kind: Kind },
    /// Two queues, or two consumers, have one name; the second of them is at fault.
    #[error("DoubleName")]
    DoubleName,
    /// There are more than 64 consumers.
    #[error("TooManyConsumers")]
    TooManyConsumers,
    #[error("out of memory")]
    NoMemory,
}

impl From<FieldFault> for DefsFault {
    ghost use Rattle.std.specs.Prelude.{◌≡◌};
    ghost use Rattle.defs_read.specs.Causes.{of_field};

    ghost from_gives = { λ fault result. result ≡ of_field fault };

    fn from(fault: FieldFault) -> DefsFault {
        match fault {
            FieldFault::UnknownField => DefsFault::UnknownField,
            FieldFault::MissingField => DefsFault::MissingField,
            FieldFault::FloatNumber => DefsFault::FloatNumber,
            FieldFault::BadValue => DefsFault::BadValue,
        }
    }
}
