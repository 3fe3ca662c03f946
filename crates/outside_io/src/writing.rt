//! Writing all of some bytes.
ghost use Rattle.std.specs.Prelude.{◌≡◌, [], IsOk};
ghost use Rattle.outside_io.specs.Says.{Says};

use crate::outside::{Failed, Sink};

/// Writes all of the bytes, by as many calls as it takes; for no bytes it makes none. Answers Failed exactly where
/// a call failed; then no other did, since none is made after it, and some front of the bytes is written. Takes no
/// memory of its own.
pub fn write_all<K: Sink>(out: &mut K, bytes: &[u8]) -> Result<(), Failed>
    ensures says { Says result (K.written out.old) (K.written out.new)
        (K.faults out.old) (K.faults out.new) bytes.now }
    ensures nothing { bytes.now ≡ [] → IsOk result × (out.new ≡ out.old) }
{
    let mut at = 0;
    'writing: while at < bytes.len() {
        at += out.write(&bytes[at..])?;
    }
    Ok(())
}
