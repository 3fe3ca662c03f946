//! Why an object doesn't fit a table of fields.
use thiserror::Error;

/// Why an object doesn't fit a table of fields.
#[derive(Clone, Copy, Debug, PartialEq, Eq, Error)]
pub enum FieldFault {
    /// A member has the name of no field of the table.
    #[error("a field that is not known here")]
    UnknownField,
    /// A field that must stand is missing.
    #[error("a field that must stand is missing")]
    MissingField,
    /// A number is no whole number of 64 bits, with or without a sign.
    #[error("a number that is no whole number of 64 bits")]
    FloatNumber,
    /// The field may not have this value.
    #[error("a value that the field may not have")]
    BadValue,
}
