//! The headers of a message.
use byte_lists::Bytes;

/// The value of a header.
#[derive(Debug, Drop)]
pub enum HeaderValue {
    /// True or false.
    Bool(bool),
    /// A whole number.
    Int(i64),
    /// A text; in a message its bytes are UTF-8.
    Text(Bytes),
}

/// A named value. In a message the name has at most 255 bytes, which are UTF-8.
#[derive(Debug, Drop)]
pub struct Header {
    pub name: Bytes,
    pub value: HeaderValue,
}
