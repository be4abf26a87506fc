//! SHA-512 (FIPS 180-4), with its work counted by a meter.

use super::Counted;
use crate::meter::Meter;
use arrayvec::ArrayVec;
use sha2::{Digest, Sha512};
use std::marker::Model;

/// A running SHA-512 (FIPS 180-4) digest. Contracts see it as the running digest of the crate `sha2`.
#[derive(Debug, Drop)]
pub struct CountedSha512 {
    running: Sha512,
}

impl Model for CountedSha512 {
    ghost use Rattle.sha2.specs.declared.Sha512.{Sha512};

    ghost Value = { Sha512 };

    ghost view = { λ s. s.running };
}

impl Counted for CountedSha512 {
    ghost use Rattle.prims_core.specs.Digests.{sha512, HoldsSha512};
    ghost use Rattle.sha2.proofs.Facts512.{length-sha512};
    ghost use Rattle.prims_core.specs.Private.DigestFacts.{sha512_bytes};
    ghost use Rattle.std.proofs.Common.{rules};

    ghost holds = { λ s m. HoldsSha512 s m };

    ghost digest = { sha512 };

    ghost LEN = { 64 };

    const LEN: usize = 64;

    fn begin() -> Self {
        CountedSha512 {
            running: Sha512::new(),
        }
    }

    fn feed(&mut self, meter: &mut Meter, piece: &[u8]) {
        self.running.update(piece);
        meter.count_bytes(piece.len());
    }

    fn finish(self, meter: &mut Meter) -> ArrayVec<u8, 64> {
        meter.count_digest();
        ArrayVec::try_from(self.running.finalize().as_slice()).unwrap()
    }

    fn finish_into(self, meter: &mut Meter, out: &mut [u8]) {
        meter.count_digest();
        out.copy_from_slice(self.running.finalize().as_slice());
    }

    ghost at_least_1 = { Prim.search rules };

    ghost at_most_64 = { Prim.search rules };

    ghost length_digest = { length-sha512 };

    ghost digest_bytes = { sha512_bytes };
}
