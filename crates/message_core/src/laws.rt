//! Laws of messages and their bytes. Each is the contract of a function with no body.
ghost use Rattle.message_core.specs.Laws.{ContentFirst, NoPrefix, RoundTrip, SizeOf, CutSize, Cleared};

/// The bytes of a message end where the message does: whatever stands behind them, no other message begins the same
/// bytes. So none is a proper prefix of another, and each is read as the message that it is.
pub fn contents()
    ensures first { ContentFirst }
    ensures no_prefix { NoPrefix }
    ensures round_trip { RoundTrip }
{}

/// How many bytes a message has, with its body and without it, and that it stays a message without its body.
pub fn sizes()
    ensures size_of { SizeOf }
    ensures cut_size { CutSize }
    ensures cleared { Cleared }
{}
