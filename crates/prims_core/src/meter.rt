//! The meter: five counts of the work done.
//!
//! Only calls that do work raise a count, so the counts are exactly the work that was done with the meter. With a
//! [`Reading`] from before a call, [`Meter::work_since`] returns the [`Work`] of that call.

ghost use Rattle.std.specs.Prelude.{◌≡◌, ◌+◌, ◌^◌, ◌<◌};
ghost use Rattle.prims_core.specs.Work.{no_work, raised_by, work_between, IsBelow, IsWithin};
ghost use Rattle.prims_core.specs.declared.meter.Work.{Work as Counts};

use std::marker::Model;

/// The work of a hash: by how much it raises each of a meter's five counts. The record has the layout of a C struct.
/// Contracts also see a [`Meter`] and a [`Reading`] as this record, with counts of up to 128 bits.
#[repr(C)]
#[derive(Clone, Copy, Debug, PartialEq, Eq)]
pub struct Work {
    /// Finished digests.
    pub digests: u64,
    /// Digested bytes.
    pub bytes: u64,
    /// Block mixings, which only scrypt does. Each mixes 2r blocks of 64 bytes, so it takes longer as r grows.
    pub mixes: u64,
    /// Bytes of memory for scrypt's table.
    pub table: u64,
    /// Bytes of scrypt's scratch memory.
    pub scratch: u64,
}

/// The totals of the work done so far: digests, digested bytes, scrypt's mixings of 2r blocks each, and the bytes of
/// scrypt's tables and scratch memory. Contracts see a meter as the record [`Work`].
#[derive(Debug, Drop)]
pub struct Meter {
    digests: u128,
    bytes: u128,
    mixes: u128,
    table: u128,
    scratch: u128,
}

impl Model for Meter {
    ghost use Rattle.prims_core.specs.declared.meter.Work.{Work};

    ghost Value = { Work };

    ghost view = { λ m. record { digests = m.digests; bytes = m.bytes; mixes = m.mixes; table = m.table; scratch = m.scratch } };
}

/// A snapshot of a meter's counts, from which [`Meter::work_since`] computes the work done since. A snapshot can't
/// become a meter again. Contracts see it as the record [`Work`].
#[derive(Clone, Copy, Debug)]
pub struct Reading {
    digests: u128,
    bytes: u128,
    mixes: u128,
    table: u128,
    scratch: u128,
}

impl Model for Reading {
    ghost use Rattle.prims_core.specs.declared.meter.Work.{Work};

    ghost Value = { Work };

    ghost view = { λ r. record { digests = r.digests; bytes = r.bytes; mixes = r.mixes; table = r.table; scratch = r.scratch } };

    ghost inverse = { λ w. record { digests = w.digests; bytes = w.bytes; mixes = w.mixes; table = w.table; scratch = w.scratch } };
}

impl Meter {
    /// Returns a meter that has counted nothing.
    pub fn new() -> Self
        ensures { result ≡ no_work }
    {
        Meter {
            digests: 0,
            bytes: 0,
            mixes: 0,
            table: 0,
            scratch: 0,
        }
    }

    /// Returns the number of finished digests.
    pub fn digests(&self) -> u128
        ensures { result ≡ self.now.digests }
    {
        self.digests
    }

    /// Returns the number of digested bytes.
    pub fn bytes(&self) -> u128
        ensures { result ≡ self.now.bytes }
    {
        self.bytes
    }

    /// Returns the number of scrypt's block mixings, of 2r blocks each.
    pub fn mixes(&self) -> u128
        ensures { result ≡ self.now.mixes }
    {
        self.mixes
    }

    /// Returns the number of bytes of scrypt's tables.
    pub fn table(&self) -> u128
        ensures { result ≡ self.now.table }
    {
        self.table
    }

    /// Returns the number of bytes of scrypt's scratch memory.
    pub fn scratch(&self) -> u128
        ensures { result ≡ self.now.scratch }
    {
        self.scratch
    }

    /// Returns all the work that the meter has counted since it was new.
    ///
    /// Precondition: each count is below 2^64.
    pub fn work(&self) -> Work
        requires { IsBelow self.now (2 ^ 64) }
        ensures { result ≡ self.now }
    {
        Work {
            digests: self.digests as u64,
            bytes: self.bytes as u64,
            mixes: self.mixes as u64,
            table: self.table as u64,
            scratch: self.scratch as u64,
        }
    }

    /// Returns a snapshot of the counts.
    pub fn reading(&self) -> Reading
        ensures { result ≡ self.now }
    {
        Reading {
            digests: self.digests,
            bytes: self.bytes,
            mixes: self.mixes,
            table: self.table,
            scratch: self.scratch,
        }
    }

    /// Returns the work done since the reading: how much each count has risen.
    ///
    /// Preconditions: no count of the reading is above the meter's, and each count has risen by less than 2^64.
    pub fn work_since(&self, reading: &Reading) -> Work
        requires earlier { IsWithin reading.now self.now }
        requires small { IsBelow (work_between reading.now self.now) (2 ^ 64) }
        ensures work { result ≡ work_between reading.now self.now }
        ensures raised { (work : Counts) → self.now ≡ raised_by reading.now work → result ≡ work }
    {
        Work {
            digests: (self.digests - reading.digests) as u64,
            bytes: (self.bytes - reading.bytes) as u64,
            mixes: (self.mixes - reading.mixes) as u64,
            table: (self.table - reading.table) as u64,
            scratch: (self.scratch - reading.scratch) as u64,
        }
    }

    /// Counts `count` bytes that were fed to a digest.
    pub(crate) fn count_bytes(&mut self, count: usize)
        requires { self.old.bytes + count < 2 ^ 128 }
        ensures { self.new ≡ record self.old { bytes = self.old.bytes + count } }
    {
        self.bytes += count as u128;
    }

    /// Counts a finished digest.
    pub(crate) fn count_digest(&mut self)
        requires { self.old.digests + 1 < 2 ^ 128 }
        ensures { self.new ≡ record self.old { digests = self.old.digests + 1 } }
    {
        self.digests += 1;
    }

    /// Counts one of scrypt's block mixings, of 2r blocks.
    pub(crate) fn count_mix(&mut self)
        requires { self.old.mixes + 1 < 2 ^ 128 }
        ensures { self.new ≡ record self.old { mixes = self.old.mixes + 1 } }
    {
        self.mixes += 1;
    }

    /// Counts the bytes of one of scrypt's tables.
    pub(crate) fn count_table(&mut self, bytes: usize)
        requires { self.old.table + bytes < 2 ^ 128 }
        ensures { self.new ≡ record self.old { table = self.old.table + bytes } }
    {
        self.table += bytes as u128;
    }

    /// Counts bytes of scrypt's scratch memory.
    pub(crate) fn count_scratch(&mut self, bytes: usize)
        requires { self.old.scratch + bytes < 2 ^ 128 }
        ensures { self.new ≡ record self.old { scratch = self.old.scratch + bytes } }
    {
        self.scratch += bytes as u128;
    }
}
