//! What a journal is written to.
ghost use Rattle.std.specs.Prelude.{◌≡◌, ◌+◌, ◌^◌, ◌<◌, ◌≤◌, ℕ, List, Option, length, min, take, drop, IfOk, OnOk, IfSome};
ghost use Rattle.outside_io.specs.Told.{HasCause, WhileTold};
ghost use Rattle.disk_core.specs.Trails.{Extends, SinceIn};
ghost use Rattle.disk_core.specs.declared.trails.Trail.{Trail};
ghost use Rattle.disk_core.specs.Images.{Holds, Torn, Follows, Only, NoMore, Still, Elapses, IsTold};

use outside_io::Failed;

/// One file of at most 2^63 - 1 bytes. What was written since the last sync that succeeded, a crash may leave
/// out, in part or torn: contracts see each byte list that a crash may leave, an image.
pub trait Disk: Send {
    /// The bytes that a read gives; None where the disk doesn't tell them.
    ghost seen: { Self → Option (List ℕ) };

    /// The byte lists that a crash now may leave.
    ghost images: { Self → List ℕ → Type 0 };

    /// The number of moments before this one. It never falls, and rises in each call that changes the images.
    ghost moment: { Self → ℕ };

    /// The byte lists that a crash at some moment since that one may have left.
    ghost since: { Self → ℕ → List ℕ → Type 0 };

    /// What the disk was through, as plain data; None where it doesn't tell its bytes.
    ghost trail: { Self → Option Trail };

    /// How often a call has failed. It rises by one where a call fails, and else stays.
    ghost faults: { Self → ℕ };

    /// How often `sync` was called. No other call raises it.
    ghost syncs: { Self → ℕ };

    /// How many bytes there are.
    fn len(&mut self) -> Result<u64, Failed>
        ensures len { IfOk result (λ n. IfSome (seen self.old) (λ b. n ≡ length b)) }
        ensures bound { IfOk result (λ n. n < 2 ^ 63) }
        ensures still { Still (seen self.old) (seen self.new) }
        ensures images { NoMore (images self.old) (images self.new) }
        ensures trail { Extends (trail self.old) (trail self.new) }
        ensures time { Elapses (IsTold (seen self.new)) (moment self.old) (moment self.new)
            (since self.old) (since self.new) (images self.old) (images self.new) }
        ensures cause { HasCause (faults self.old) (faults self.new) result }
        ensures syncs { syncs self.new ≡ syncs self.old };

    /// Moves as many bytes as the buffer and the end allow, from that place on, to the front of the buffer.
    fn read_at(&mut self, at: u64, buffer: &mut [u8]) -> Result<usize, Failed>
        ensures bound { IfOk result (λ n. n ≤ length buffer.new) }
        ensures read { IfOk result (λ n. IfSome (seen self.old) (λ b.
            (take n buffer.new ≡ take (length buffer.new) (drop at b))
            × (n ≡ min (length buffer.new) (length (drop at b))))) }
        ensures still { Still (seen self.old) (seen self.new) }
        ensures images { NoMore (images self.old) (images self.new) }
        ensures trail { Extends (trail self.old) (trail self.new) }
        ensures time { Elapses (IsTold (seen self.new)) (moment self.old) (moment self.new)
            (since self.old) (since self.new) (images self.old) (images self.new) }
        ensures cause { HasCause (faults self.old) (faults self.new) result }
        ensures syncs { syncs self.new ≡ syncs self.old };

    /// Writes over what is there, and past the end. Where it fails, the range may hold any bytes. Until a sync
    /// that succeeds a crash may leave any bytes in the range and past the old end.
    fn write_at(&mut self, at: u64, bytes: &[u8]) -> Result<(), Failed>
        requires { IfSome (seen self.old) (λ b. at ≤ length b) }
        ensures written { OnOk result (WhileTold (seen self.old) (seen self.new) (Holds at bytes.now)) }
        ensures torn { WhileTold (seen self.old) (seen self.new) (Torn at (length bytes.now)) }
        ensures images { Follows (Torn at (length bytes.now)) (images self.old) (images self.new) }
        ensures trail { Extends (trail self.old) (trail self.new) }
        ensures time { Elapses (IsTold (seen self.new)) (moment self.old) (moment self.new)
            (since self.old) (since self.new) (images self.old) (images self.new) }
        ensures cause { HasCause (faults self.old) (faults self.new) result }
        ensures syncs { syncs self.new ≡ syncs self.old };

    /// Makes sure of what was written: afterwards a crash leaves what a read gives. Where it fails, nothing new
    /// is known.
    fn sync(&mut self) -> Result<(), Failed>
        ensures durable { OnOk result (Only (seen self.new) (images self.new)) }
        ensures still { Still (seen self.old) (seen self.new) }
        ensures images { NoMore (images self.old) (images self.new) }
        ensures trail { Extends (trail self.old) (trail self.new) }
        ensures time { Elapses (IsTold (seen self.new)) (moment self.old) (moment self.new)
            (since self.old) (since self.new) (images self.old) (images self.new) }
        ensures cause { HasCause (faults self.old) (faults self.new) result }
        ensures counted { (syncs self.old ≤ syncs self.new) × (syncs self.new ≤ syncs self.old + 1) };

    /// Since the present moment there are the images of now.
    ghost only_now: { (d : Self) (c : List ℕ) → since d (moment d) c → images d c };

    /// The images of now are among those since the present moment.
    ghost counts_now: { (d : Self) (c : List ℕ) → images d c → since d (moment d) c };

    /// What is an image since a later moment is one since an earlier moment.
    ghost from_later: { (d : Self) (t u : ℕ) (c : List ℕ) → t ≤ u → since d u c → since d t c };

    /// The disk as it reads is one of its images.
    ghost reads: { (d : Self) → IfSome (seen d) (images d) };

    /// Where a disk has an image, it tells its bytes.
    ghost tells: { (d : Self) (c : List ℕ) → images d c → IsTold (seen d) };

    /// A disk has at most 2^63 - 1 bytes.
    ghost within: { (d : Self) → IfSome (seen d) (λ b. length b < 2 ^ 63) };

    /// The images since a moment are those of the trail.
    ghost traced: { (d : Self) (t : ℕ) (c : List ℕ) → since d t c → SinceIn (trail d) t c };

    /// Those of the trail are the images since a moment.
    ghost tracing: { (d : Self) (t : ℕ) (c : List ℕ) → SinceIn (trail d) t c → since d t c };

    /// Each step of the trail began a moment.
    ghost counted: { (d : Self) → IfSome (trail d) (λ x. moment d ≡ length x.steps) };
}
