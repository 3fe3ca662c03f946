//! Parcels of messages that enter their queues.
ghost use Rattle.std.specs.Prelude.{◌≡◌};
ghost use Rattle.txn_core.specs.Parcels.{shown};
ghost use Rattle.stage_core.specs.Entering.{entering, placed};

use message_core::Message;
use txn_core::{Parcel, Receipt};

/// The place in the journal of what stands at a place within the transaction of this receipt.
fn placed(receipt: Option<Receipt>, within: u32) -> u64
    ensures { result ≡ placed receipt within }
{
    match receipt {
        Some(receipt) => receipt.at.saturating_add(u64::from(within)),
        None => 0,
    }
}

/// The parcel with which a message enters its queue: where it is persistent, with the receipt of its transaction and the
/// place of its body, which stands at `within` there; else with neither. Takes no memory.
pub fn entering(message: Message, within: u32, receipt: Option<Receipt>) -> Parcel
    ensures { shown result ≡ entering message within receipt }
{
    if message.persistent() {
        Parcel::of(message, receipt, placed(receipt, within))
    } else {
        Parcel::of(message, None, 0)
    }
}
