//! What is delivered.
ghost use Rattle.std.specs.Prelude.{◌≡◌, ◌≤◌, length};
ghost use Rattle.target_core.specs.Seats.{sum_of};
ghost use Rattle.target_core.specs.declared.deliveries.TheConstants.{MOST_BODY};

/// The most bytes of a body of which a sum is taken.
pub const MOST_BODY: usize = 1_048_576;

/// One delivery to a consumer. Consumers and queues are numbered over the definitions, from 0.
#[derive(Clone, Copy, Debug, PartialEq, Eq)]
pub struct Delivery {
    /// To whom it goes.
    pub consumer: u32,
    /// From which queue it comes.
    pub queue: u32,
    /// The id of the message.
    pub id: u64,
    /// The number of this delivery among those of the message, from 1.
    pub delivered: u32,
    /// How many bytes the message's body has.
    pub length: u64,
    /// The sum of the message's body: of (place + 1) times the byte there, with places from 0.
    pub sum: u64,
}

/// The sum of a body of at most `MOST_BODY` bytes. Takes no memory.
pub fn sum(body: &[u8]) -> u64
    requires { length body.now ≤ MOST_BODY }
    ensures { result ≡ sum_of body.now }
{
    let mut sum = 0;
    for (place, byte) in body.iter().enumerate() {
        sum += (place as u64 + 1) * u64::from(*byte);
    }
    sum
}
