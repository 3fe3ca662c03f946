//! How many bytes headers take. A number that would pass the greatest u64 stays there.
ghost use Rattle.std.specs.Prelude.{◌≡◌, ◌<◌, ◌-◌, ◌^◌, length, min, IsTrue, ◌↔◌};
ghost use Rattle.std.specs.List.{flat_map, All, Any};
ghost use Rattle.message_core.specs.Spelling.{value_bytes, header_bytes, IsNumber};

use crate::headers::{Header, HeaderValue};
use crate::limits::LONGEST_NAME;

/// The bytes of a value, with its tag.
fn value_size(value: &HeaderValue) -> u64
    ensures size { result ≡ min (length (value_bytes value.now)) (2 ^ 64 - 1) }
    ensures number { IsNumber value.now }
{
    match value {
        HeaderValue::Bool(_) => 1,
        HeaderValue::Int(number) => {
            let _number = *number;
            9
        }
        HeaderValue::Text(text) => 5_u64.saturating_add(text.as_slice().len() as u64),
    }
}

/// The bytes of one header.
fn header_size(header: &Header) -> u64
    ensures size { result ≡ min (length (header_bytes header.now)) (2 ^ 64 - 1) }
    ensures number { IsNumber header.now.value }
{
    let name = 1_u64.saturating_add(header.name.as_slice().len() as u64);
    name.saturating_add(value_size(&header.value))
}

/// The bytes of all headers, without their number.
pub(crate) fn headers_size(headers: &[Header]) -> u64
    ensures size { result ≡ min (length (flat_map header_bytes headers.now)) (2 ^ 64 - 1) }
    ensures number { All (λ h. IsNumber h.value) headers.now }
{
    let mut size = 0_u64;
    for header in headers {
        size = size.saturating_add(header_size(header));
    }
    size
}

/// Whether a name has more bytes than a name may have.
pub(crate) fn has_long_name(headers: &[Header]) -> bool
    ensures { IsTrue result ↔ (Any (λ h. LONGEST_NAME < length h.name) headers.now) }
{
    headers
        .iter()
        .any(|header| header.name.as_slice().len() > LONGEST_NAME)
}
