//! What the names of a selector stand for.
ghost use Rattle.std.specs.Prelude.{◌≡◌};
ghost use Rattle.selector_eval.specs.Evaluation.{delivery_mode, property};
ghost use Rattle.selector_eval.specs.Seen.{seen};

use crate::values::Value;
use message_core::{HeaderValue, Message};

/// The name of the message's priority (JMS 1.1, section 3.8.1.1).
const PRIORITY: &[u8] = b"JMSPriority";
/// The name of its delivery mode.
const DELIVERY_MODE: &[u8] = b"JMSDeliveryMode";

/// The text of a delivery mode.
fn delivery_mode(persistent: bool) -> &'static [u8]
    ensures { result.now ≡ delivery_mode persistent }
{
    if persistent {
        b"PERSISTENT"
    } else {
        b"NON_PERSISTENT"
    }
}

/// The value of a name: the priority, the delivery mode, or that of a header, null where there is none.
pub(crate) fn property<'a>(message: &'a Message, name: &[u8]) -> Value<'a>
    ensures { seen result ≡ property message.now name.now }
{
    if name == PRIORITY {
        return Value::Int(i64::from(message.priority()));
    }
    if name == DELIVERY_MODE {
        return Value::Text(delivery_mode(message.persistent()));
    }
    match message.header(name) {
        None => Value::Null,
        Some(HeaderValue::Bool(truth)) => Value::Bool(*truth),
        Some(HeaderValue::Int(number)) => Value::Int(*number),
        Some(HeaderValue::Text(text)) => Value::Text(text.as_slice()),
    }
}
