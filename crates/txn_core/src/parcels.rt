//! Parcels.
ghost use Rattle.txn_core.specs.Whole.{IsWhole};

use acts_core::{Cargo, Receipt};
use message_core::Message;

/// A message as a queue keeps it: the message, whose body may not be here; the size of its whole encoding; its
/// receipt, where it was committed; the place of its body; and how often it was delivered. Contracts see these
/// five as `shown` tells.
#[derive(Drop)]
pub struct Parcel {
    message: Message,
    size: u64,
    receipt: Option<Receipt>,
    body_at: u64,
    delivered: u32,
    ghost whole: { IsWhole message size },
}

impl Parcel {
    ghost use Rattle.std.specs.Prelude.{◌≡◌, ◌≤◌, ◌↔◌, IsTrue, None};
    ghost use Rattle.txn_core.specs.Shown.{fresh, number_after, IsHere};
    ghost use Rattle.txn_core.specs.Parcels.{shown};

    /// A parcel of a whole message that was never delivered. The place is that of its body, where it was
    /// committed. Takes no memory.
    pub fn of(message: Message, receipt: Option<Receipt>, body_at: u64) -> Parcel
        ensures { shown result ≡ fresh message receipt body_at }
    {
        let size = message.size();
        Parcel {
            message,
            size,
            receipt,
            body_at,
            delivered: 0,
        }
    }

    /// The message, with an empty body where the body isn't here.
    pub fn message(&self) -> &Message
        ensures { result.now ≡ (shown self.now).message }
    {
        &self.message
    }

    /// Where the message was committed.
    pub fn receipt(&self) -> Option<Receipt>
        ensures { result ≡ (shown self.now).receipt }
    {
        self.receipt
    }

    /// Forgets the receipt; all else stays.
    pub fn carried(&mut self)
        ensures { shown self.new ≡ record (shown self.old) { receipt = None } }
    {
        self.receipt = None;
    }

    /// How often it was delivered.
    pub fn delivered(&self) -> u32
        ensures { result ≡ (shown self.now).delivered }
    {
        self.delivered
    }

    /// It is delivered once more: the number rises by one, and stays at 2^32 - 1. All else stays.
    pub fn raise(&mut self)
        ensures raised { shown self.new ≡
            record (shown self.old) { delivered = number_after (shown self.old).delivered } }
        ensures up { (shown self.old).delivered ≤ (shown self.new).delivered }
    {
        self.delivered = self.delivered.saturating_add(1);
    }

    /// Whether the message outlives the process.
    pub fn persistent(&self) -> bool
        ensures { result ≡ (shown self.now).message.persistent }
    {
        self.message.persistent()
    }

    /// Whether the body is here. An empty body always is.
    pub fn is_here(&self) -> bool
        ensures { IsTrue result ↔ IsHere (shown self.now) }
    {
        self.message.size() == self.size
    }

    /// The body, where it is here.
    pub fn body(&self) -> &[u8]
        requires { IsHere (shown self.now) }
        ensures { result.now ≡ (shown self.now).message.body }
    {
        self.message.body()
    }
}

impl Cargo for Parcel {
    ghost use Rattle.txn_core.specs.Parcels.{load_of};
    ghost use Rattle.txn_core.specs.ContentFits.{content_fits};

    ghost load = { load_of };

    fn id(&self) -> u64 {
        self.message.id()
    }

    fn size(&self) -> u64 {
        self.size
    }

    fn count(&self) -> u32 {
        self.delivered
    }

    ghost content_fits = { content_fits };
}
