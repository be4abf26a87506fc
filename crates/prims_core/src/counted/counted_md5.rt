//! MD5 (RFC 1321), with its work counted by a meter.

use super::Counted;
use crate::meter::Meter;
use arrayvec::ArrayVec;
use md5::{Digest, Md5};
use std::marker::Model;

/// A running MD5 (RFC 1321) digest. Contracts see it as the running digest of the crate `md5`.
#[derive(Debug, Drop)]
pub struct CountedMd5 {
    running: Md5,
}

impl Model for CountedMd5 {
    ghost use Rattle.md5.specs.declared.Md5.{Md5};

    ghost Value = { Md5 };

    ghost view = { λ s. s.running };
}

impl Counted for CountedMd5 {
    ghost use Rattle.prims_core.specs.Digests.{md5, HoldsMd5};
    ghost use Rattle.md5.proofs.StandardFacts.{length-md5};
    ghost use Rattle.prims_core.specs.Private.DigestFacts.{md5_bytes};
    ghost use Rattle.std.proofs.Common.{rules};

    ghost holds = { λ s m. HoldsMd5 s m };

    ghost digest = { md5 };

    ghost LEN = { 16 };

    const LEN: usize = 16;

    fn begin() -> Self {
        CountedMd5 {
            running: Md5::new(),
        }
    }

    fn feed(&mut self, meter: &mut Meter, piece: &[u8]) {
        self.running.update(piece);
        meter.count_bytes(piece.len());
    }

    fn finish(self, meter: &mut Meter) -> ArrayVec<u8, 64> {
        meter.count_digest();
        ArrayVec::try_from(self.running.finalize().as_slice()).unwrap()
    }

    fn finish_into(self, meter: &mut Meter, out: &mut [u8]) {
        meter.count_digest();
        out.copy_from_slice(self.running.finalize().as_slice());
    }

    ghost at_least_1 = { Prim.search rules };

    ghost at_most_64 = { Prim.search rules };

    ghost length_digest = { length-md5 };

    ghost digest_bytes = { md5_bytes };
}
