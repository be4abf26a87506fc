//! The memory for the rows of scrypt's table (the V of RFC 7914, section 5), and the loop that fills it.
//!
//! The memory is a vector with enough capacity, or words that a caller lends. Blocks are appended to it, so the memory
//! needs no initialization, which would take as long as wiping it. `push_block` is always inlined, since it runs in the
//! loop of a mixing, once for each block.

ghost use Rattle.std.specs.Prelude.{◌≡◌, ℕ, ◌+◌, ◌*◌, ◌%◌, ◌^◌, ◌<◌, ◌≤◌, List, [], ◌++◌, length, take, vec_capacity};
ghost use Rattle.std.specs.Fn.{iterate};
ghost use Rattle.prims_core.specs.BlockMix.{block_mix};
ghost use Rattle.prims_core.specs.Diagonals.{in_rows};
ghost use Rattle.prims_core.specs.Memory.{rows_of, HoldsMixings};

use crate::meter::Meter;
use crate::mix::{BLOCK_WORDS, mix_and_append};
use std::mem::size_of;
use std::simd::prelude::*;

/// Memory for the rows of scrypt's table. Blocks of sixteen words are appended to it and then read from it.
pub trait Rows {
    // The words of the blocks appended so far.
    ghost words: { Self → List ℕ };

    // The number of words that fit into the memory.
    ghost room: { Self → ℕ };

    /// Removes all blocks, and keeps the memory.
    fn restart(&mut self)
        ensures words { words self.new ≡ [] }
        ensures room { room self.new ≡ room self.old };

    /// Appends a block.
    ///
    /// Preconditions: the block has sixteen words, and there is memory for them.
    fn push_block(&mut self, block: &[u32])
        requires whole { length block.now ≡ 16 }
        requires fits { length (words self.old) + 16 ≤ room self.old }
        ensures words { words self.new ≡ words self.old ++ block.now }
        ensures room { room self.new ≡ room self.old };

    /// Returns the words of all blocks.
    fn words(&self) -> &[u32]
        ensures { result.now ≡ words self.now };
}

impl Rows for Vec<u32> {
    ghost words = { λ v. v.items };

    ghost room = { λ v. vec_capacity v };

    #[inline(always)]
    fn restart(&mut self) {
        self.clear();
    }

    // The block is loaded as one vector, as the mixing loads it, so the processor loads it only once. The precondition
    // guarantees the capacity, so the words are pushed without a test, which would put a branch into the mixing's loop.
    #[inline(always)]
    fn push_block(&mut self, block: &[u32]) {
        'appending: for word in u32x16::from_slice(block).to_array() {
            self.push_reserved(word);
        }
    }

    fn words(&self) -> &[u32] {
        self.as_slice()
    }
}

/// Rows stored in words that a caller lends.
#[derive(Drop)]
pub struct LentRows<'a> {
    words: &'a mut [u32],
    written: usize,
    ghost inside: { written ≤ length words.now },
}

impl<'a> LentRows<'a> {
    /// Returns empty rows that use `words` as memory. The meter counts the bytes of `words`, four for each word, as
    /// bytes of scrypt's table.
    ///
    /// Preconditions: `words` has at most 2^30 bytes, and the meter can count them without overflow.
    pub fn new(words: &'a mut [u32], meter: &mut Meter) -> LentRows<'a>
        requires fits { 4 * length words.old ≤ 2 ^ 30 }
        requires room { meter.old.table + 4 * length words.old < 2 ^ 128 }
        ensures empty { ⟦<LentRows<'a> as Rows>⟧.words result ≡ [] }
        ensures room { ⟦<LentRows<'a> as Rows>⟧.room result ≡ length words.old }
        ensures count { meter.new ≡ record meter.old { table = meter.old.table + 4 * length words.old } }
    {
        meter.count_table(words.len() * size_of::<u32>());
        LentRows { words, written: 0 }
    }
}

impl<'a> Rows for LentRows<'a> {
    ghost words = { λ s. take s.written s.words.now };

    ghost room = { λ s. length s.words.now };

    #[inline(always)]
    fn restart(&mut self) {
        self.written = 0;
    }

    #[inline(always)]
    fn push_block(&mut self, block: &[u32]) {
        let end = self.written + BLOCK_WORDS;
        u32x16::from_slice(block).copy_to_slice(&mut self.words[self.written..end]);
        self.written = end;
    }

    fn words(&self) -> &[u32] {
        &self.words[..self.written]
    }
}

/// Replaces all rows by `count` new ones, as the first loop of scryptROMix does (RFC 7914, section 5, step 2): row `i`
/// is `x` after `i` mixings. Afterwards `x` has been mixed `count` times, and the meter has counted these mixings. In
/// `x` and in the rows, blocks are in diagonal order. One mixing reads `x` and writes `y`, and the next one reads `y`
/// and writes `x`; so what `y` holds before the call does not matter.
///
/// Preconditions:
///
/// - `count` is even and not 0.
/// - `x` and `y` have 32r words each, which is the length of a row, for the same r of at least 1.
/// - `rows` has memory for all `count` rows.
/// - The meter can count the mixings without overflow.
pub fn fill_by_mixing<R: Rows>(
    rows: &mut R,
    count: usize,
    x: &mut [u32],
    y: &mut [u32],
    meter: &mut Meter,
)
    requires even { (1 ≤ count) × (count % 2 ≡ 0) }
    requires blocks { (r : ℕ) × (1 ≤ r) × (length x.old ≡ 32 * r) × (length y.old ≡ 32 * r) }
    requires fits { count * length x.old ≤ R.room rows.old }
    requires room { meter.old.mixes + count < 2 ^ 128 }
    ensures whole { length (R.words rows.new) ≡ count * length x.old }
    ensures rows { HoldsMixings (rows_of count (length x.old) (R.words rows.new)) count (in_rows x.old) }
    ensures kept { R.room rows.new ≡ R.room rows.old }
    ensures mixed { in_rows x.new ≡ iterate block_mix count (in_rows x.old) }
    ensures count { meter.new ≡ record meter.old { mixes = meter.old.mixes + count } }
{
    rows.restart();
    'filling: for _ in 0..count / 2 {
        mix_and_append(x, y, rows, meter);
        mix_and_append(y, x, rows, meter);
    }
}
