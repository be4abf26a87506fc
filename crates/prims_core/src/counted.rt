//! Digests whose work a meter counts: MD5, SHA-256 and SHA-512, which implement the trait [`Counted`].
//!
//! The caller feeds a message piece by piece and finishes the digest once. Feeding a piece adds its length
//! to the meter's bytes, and finishing adds one to its digests.

ghost use Rattle.std.specs.Prelude.{◌≡◌, ℕ, ◌+◌, ◌^◌, ◌<◌, ◌≤◌, List, [], ◌++◌, length, All};

use crate::meter::Meter;
use arrayvec::ArrayVec;

mod counted_md5;
mod counted_sha256;
mod counted_sha512;

pub use counted_md5::CountedMd5;
pub use counted_sha256::CountedSha256;
pub use counted_sha512::CountedSha512;

/// A running digest of a message, whose work a meter counts.
///
/// The message is all pieces that were fed, joined in order, so the digest does not depend on where the message is cut
/// into pieces.
pub trait Counted: Drop {
    // `holds running message`: the pieces fed so far, joined, are this message.
    ghost holds: { Self → List ℕ → Type 0 };

    // The digest of a whole message.
    ghost digest: { List ℕ → List ℕ };

    ghost LEN: { ℕ };

    /// The length of a digest in bytes, from 1 to 64.
    const LEN: usize;

    /// Returns a running digest of the empty message.
    fn begin() -> Self
        ensures { holds result [] };

    /// Appends `piece` to the message, and adds its length to the meter's bytes.
    ///
    /// Precondition: the meter can count these bytes without overflow.
    fn feed(&mut self, meter: &mut Meter, piece: &[u8])
        requires { meter.old.bytes + length piece.now < 2 ^ 128 }
        ensures message { (m : List ℕ) → holds self.old m → holds self.new (m ++ piece.now) }
        ensures count { meter.new ≡ record meter.old { bytes = meter.old.bytes + length piece.now } };

    /// Returns the digest of the message, and adds one to the meter's digests.
    ///
    /// Precondition: the meter can count one more digest without overflow.
    fn finish(self, meter: &mut Meter) -> ArrayVec<u8, 64>
        requires { meter.old.digests + 1 < 2 ^ 128 }
        ensures digest { (m : List ℕ) → holds self m → result.items ≡ digest m }
        ensures length { length result.items ≡ LEN }
        ensures count { meter.new ≡ record meter.old { digests = meter.old.digests + 1 } };

    /// Writes the digest of the message to `out`, and adds one to the meter's digests. The default calls
    /// [`Counted::finish`] and copies the digest.
    ///
    /// Preconditions: `out` is as long as a digest, and the meter can count one more digest without overflow.
    fn finish_into(self, meter: &mut Meter, out: &mut [u8])
    where
        Self: Sized,
        requires length { length out.old ≡ LEN }
        requires room { meter.old.digests + 1 < 2 ^ 128 }
        ensures digest { (m : List ℕ) → holds self m → out.new ≡ digest m }
        ensures count { meter.new ≡ record meter.old { digests = meter.old.digests + 1 } }
    {
        out.copy_from_slice(self.finish(meter).as_slice());
    }

    // A digest has 1 to 64 bytes.
    ghost at_least_1: { 1 ≤ LEN };

    ghost at_most_64: { LEN ≤ 64 };

    // Every digest consists of LEN numbers, and each of these is a byte.
    ghost length_digest: { (m : List ℕ) → length (digest m) ≡ LEN };

    ghost digest_bytes: { (m : List ℕ) → All (λ b. b < 256) (digest m) };
}
