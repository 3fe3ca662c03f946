//! The numbers that are drawn one after the other, and the messages that they make.
ghost use Rattle.std.specs.Prelude.{◌≡◌, ◌<◌, ◌≤◌, IfOk};
ghost use Rattle.gen_core.specs.Draws.{length_of, message_of, next_of};
ghost use Rattle.gen_core.specs.Generated.{body_bytes};

use crate::definitions::PRIORITIES;
use crate::phases::MOST_MESSAGES;
use byte_lists::{Bytes, NoMemory};
use message_core::Message;
use std::alloc::Global;

/// What a number is multiplied by for the next one.
pub const FACTOR: u64 = 6_364_136_223_846_793_005;

/// What is then added to it.
pub const SUMMAND: u64 = 1_442_695_040_888_963_407;

/// How many low bits of a number are left out where a message is made of it: they vary less than the others.
pub const LOW_BITS: u32 = 33;

/// How many lengths a body may have, from 0 on.
pub const LENGTHS: u64 = 64;

/// The letter `m`, of which bodies are made.
pub const LETTER: u8 = b'm';

/// The number that follows x.
pub(crate) fn next(x: u64) -> u64
    ensures { result ≡ next_of x }
{
    x.wrapping_mul(FACTOR).wrapping_add(SUMMAND)
}

/// How many letters the body has of the message that the number x makes.
fn length(x: u64) -> u64
    ensures value { result ≡ length_of x }
    ensures small { result < LENGTHS }
{
    (x >> LOW_BITS) / u64::from(PRIORITIES) % LENGTHS
}

/// How many bytes the bodies have together that the script of this number puts, for so many messages.
#[tactic(auto, using(crate::proofs::Rows::number_after_more, crate::proofs::Rows::body_bytes_more))]
pub fn body_bytes(number: u64, count: u64) -> u64
    requires { count ≤ MOST_MESSAGES }
    ensures { result ≡ body_bytes number count }
{
    let mut x = number;
    let mut bytes = 0;
    for _before in 0..count {
        x = next(x);
        bytes += length(x);
    }
    bytes
}

/// The message with this id that the number x makes.
pub(crate) fn message(alloc: Global, id: u64, x: u64) -> Result<Message, NoMemory>
    ensures { IfOk result (λ message. message ≡ message_of id x) }
{
    let drawn = x >> LOW_BITS;
    let priority = (drawn % u64::from(PRIORITIES)) as u8;
    let Ok(body) = vec![in alloc; LETTER; length(x) as usize] else {
        return Err(NoMemory);
    };
    let body = Bytes::from_vec(body);
    match Message::make(alloc, id, false, priority, Vec::new(alloc), body) {
        Ok(message) => Ok(message),
        // Such a message keeps every limit, so only memory can be wanting.
        Err(_) => Err(NoMemory),
    }
}
