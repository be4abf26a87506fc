//! scryptBlockMix (RFC 7914, section 4), which mixes blocks of 64 bytes one after another.
//!
//! A block is sixteen words. Each block is mixed with the result of the block before it, and the first block with the
//! last block. In the output, the results with even numbers come before those with odd numbers. ROMix (section 5) also
//! mixes the XOR of its blocks and a row of its table; [`mix_xor_diagonals`] does the XOR and the mixing in one pass.
//!
//! Throughout ROMix a block's words are in diagonal order, as Salsa20/8 in lanes works on them: words 0, 5, 10, 15,
//! then 4, 9, 14, 3, then 8, 13, 2, 7, then 12, 1, 6, 11. So no mixing has to rearrange words. [`to_diagonals`]
//! rearranges the blocks once before ROMix, and [`from_diagonals`] once after it. ROMix's first loop copies blocks to
//! the table while it mixes them ([`fill_by_mixing`](crate::rows::fill_by_mixing)), since copying a whole row before
//! mixing it makes the processor wait for memory.
//!
//! The steps for one block are always inlined, since a call would pass the block through memory.

ghost use Rattle.std.specs.Prelude.{◌≡◌, ℕ, ◌+◌, ◌*◌, ◌%◌, ◌^◌, ◌<◌, ◌≤◌, List, ◌++◌, length};
ghost use Rattle.prims_core.specs.BlockMix.{block_at, block_mix};
ghost use Rattle.prims_core.specs.Diagonals.{block_in_rows, in_rows};
ghost use Rattle.prims_core.specs.Private.Mixing.{mixed_block, ArePlaced};
ghost use Rattle.prims_core.specs.Words.{xor_lists};

use crate::diagonals::Diagonals;
use crate::meter::Meter;
use crate::rows::Rows;
use crate::salsa::salsa8_of;

/// The number of words of a block.
pub(crate) const BLOCK_WORDS: usize = 16;

/// Mixes the 2r blocks of `src` into `dst`, as scryptBlockMix does (RFC 7914, section 4), and counts one mixing.
///
/// Preconditions: `src` and `dst` have 32r words each, for the same r of at least 1, and the meter can count the mixing
/// without overflow.
pub fn block_mix(src: &[u32], dst: &mut [u32], meter: &mut Meter)
    requires blocks { (r : ℕ) × (1 ≤ r) × (length src.now ≡ 32 * r) × (length dst.old ≡ 32 * r) }
    requires room { meter.old.mixes + 1 < 2 ^ 128 }
    ensures mixed { dst.new ≡ block_mix src.now }
    ensures count { meter.new ≡ record meter.old { mixes = meter.old.mixes + 1 } }
{
    mix_blocks(&InRows { words: src }, dst, src.len() / (2 * BLOCK_WORDS));
    from_diagonals(dst);
    meter.count_mix();
}

/// Mixes the 2r blocks of `src` into `dst` (RFC 7914, section 4), appends `src` to `rows`, and counts one mixing. All
/// blocks are in diagonal order.
///
/// Preconditions: `src` and `dst` have 32r words each, for the same r of at least 1, `rows` has memory for 32r more
/// words, and the meter can count the mixing without overflow.
// The function is inlined so that the length of `rows` stays in a register.
#[inline(always)]
pub(crate) fn mix_and_append<R: Rows>(src: &[u32], dst: &mut [u32], rows: &mut R, meter: &mut Meter)
    requires blocks { (r : ℕ) × (1 ≤ r) × (length src.now ≡ 32 * r) × (length dst.old ≡ 32 * r) }
    requires fits { length (R.words rows.old) + length src.now ≤ R.room rows.old }
    requires room { meter.old.mixes + 1 < 2 ^ 128 }
    ensures mixed { in_rows dst.new ≡ block_mix (in_rows src.now) }
    ensures appended { R.words rows.new ≡ R.words rows.old ++ src.now }
    ensures kept { R.room rows.new ≡ R.room rows.old }
    ensures count { meter.new ≡ record meter.old { mixes = meter.old.mixes + 1 } }
{
    let r = src.len() / (2 * BLOCK_WORDS);
    let mut x = block_on_diagonals(src, 2 * r - 1);
    'mixing: for i in 0..2 * r {
        x = mixed_block(&x, &block_on_diagonals(src, i));
        rows.push_block(block_words(src, i));
        put_result(&x, dst, i, r);
    }
    meter.count_mix();
}

/// Mixes the 2r blocks of `src` XOR `row` into `dst`, as the second loop of scryptROMix does (RFC 7914, section 5, step
/// 3), and counts one mixing. All blocks are in diagonal order.
///
/// Preconditions: `src`, `row` and `dst` have 32r words each, for the same r of at least 1, and the meter can count the
/// mixing without overflow.
pub fn mix_xor_diagonals(src: &[u32], row: &[u32], dst: &mut [u32], meter: &mut Meter)
    requires blocks { (r : ℕ) × (1 ≤ r) × (length src.now ≡ 32 * r) × (length row.now ≡ 32 * r)
        × (length dst.old ≡ 32 * r) }
    requires room { meter.old.mixes + 1 < 2 ^ 128 }
    ensures mixed { in_rows dst.new ≡ block_mix (xor_lists (in_rows src.now) (in_rows row.now)) }
    ensures count { meter.new ≡ record meter.old { mixes = meter.old.mixes + 1 } }
{
    mix_blocks(
        &Xored { words: src, row },
        dst,
        src.len() / (2 * BLOCK_WORDS),
    );
    meter.count_mix();
}

/// Rearranges the words of each block from row order to diagonal order.
///
/// Precondition: `words` has whole blocks, of 16 words each.
pub fn to_diagonals(words: &mut [u32])
    requires whole { length words.old % 16 ≡ 0 }
    ensures { in_rows words.new ≡ words.old }
{
    'turning: for i in 0..words.len() / BLOCK_WORDS {
        let place = BLOCK_WORDS * i;
        let block = Diagonals::of(&words[place..place + BLOCK_WORDS]);
        block.store_diagonals(&mut words[place..place + BLOCK_WORDS]);
    }
}

/// Rearranges the words of each block from diagonal order to row order.
///
/// Precondition: `words` has whole blocks, of 16 words each.
pub fn from_diagonals(words: &mut [u32])
    requires whole { length words.old % 16 ≡ 0 }
    ensures { words.new ≡ in_rows words.old }
{
    'turning: for i in 0..words.len() / BLOCK_WORDS {
        let place = BLOCK_WORDS * i;
        let block = Diagonals::of_diagonals(&words[place..place + BLOCK_WORDS]);
        block.store(&mut words[place..place + BLOCK_WORDS]);
    }
}

// A source of blocks: stored blocks, or the XOR of two lists of stored blocks.
trait Blocks {
    // The words of all blocks, in row order.
    ghost words: { Self → List ℕ };

    // Returns block `i`.
    fn block(&self, i: usize) -> Diagonals
        requires { 16 * i + 16 ≤ length (words self.now) }
        ensures { result ≡ block_at i (words self.now) };
}

// Blocks stored in row order.
#[derive(Drop)]
struct InRows<'a> {
    words: &'a [u32],
}

impl<'a> Blocks for InRows<'a> {
    ghost words = { λ s. s.words.now };

    #[inline(always)]
    fn block(&self, i: usize) -> Diagonals {
        Diagonals::of(block_words(self.words, i))
    }
}

// The XOR of two lists of blocks, both stored in diagonal order.
#[derive(Drop)]
struct Xored<'a> {
    words: &'a [u32],
    row: &'a [u32],
}

impl<'a> Blocks for Xored<'a> {
    ghost words = { λ s. xor_lists (in_rows s.words.now) (in_rows s.row.now) };

    #[inline(always)]
    fn block(&self, i: usize) -> Diagonals {
        block_on_diagonals(self.words, i).xor(&block_on_diagonals(self.row, i))
    }
}

// Loads block `i` of blocks that are stored in diagonal order.
#[inline(always)]
fn block_on_diagonals(words: &[u32], i: usize) -> Diagonals
    requires { 16 * i + 16 ≤ length words.now }
    ensures { result ≡ block_at i (in_rows words.now) }
{
    Diagonals::of_diagonals(block_words(words, i))
}

// Returns the sixteen words of block `i`, in the order in which they are stored.
#[inline(always)]
fn block_words(words: &[u32], i: usize) -> &[u32]
    requires { 16 * i + 16 ≤ length words.now }
    ensures { result.now ≡ block_at i words.now }
{
    &words[BLOCK_WORDS * i..BLOCK_WORDS * i + BLOCK_WORDS]
}

// Mixes 2r blocks, and writes the results to `dst` in diagonal order.
fn mix_blocks<B: Blocks>(src: &B, dst: &mut [u32], r: usize)
    requires { (1 ≤ r) × (length (B.words src.now) ≡ 32 * r) × (length dst.old ≡ 32 * r) }
    ensures { in_rows dst.new ≡ block_mix (B.words src.now) }
{
    let mut x = src.block(2 * r - 1);
    'mixing: for i in 0..2 * r {
        x = mixed_block(&x, &src.block(i));
        put_result(&x, dst, i, r);
    }
}

// Writes result `i` of 2r to its place in `dst`, where results with even numbers come before those with odd numbers
// (step 3).
#[inline(always)]
fn put_result(x: &Diagonals, dst: &mut [u32], i: usize, r: usize)
    requires { (i < 2 * r) × (length dst.old ≡ 32 * r) }
    ensures { (y : ℕ → List ℕ) → ArePlaced y r i dst.old → x.now ≡ y i → ArePlaced y r (i + 1) dst.new }
{
    let place = BLOCK_WORDS * (i / 2 + i % 2 * r);
    x.store_diagonals(&mut dst[place..place + BLOCK_WORDS]);
}

// Returns the next X, which is Salsa20/8 of the X before it XOR a block (step 2). X stays in lanes from one block to
// the next.
#[inline(always)]
fn mixed_block(x: &Diagonals, block: &Diagonals) -> Diagonals
    ensures { result ≡ mixed_block x.now block.now }
{
    salsa8_of(&x.xor(block))
}
