//! scryptROMix (RFC 7914, section 5). It is applied to one part after another, in the same memory.
//!
//! A part is one of the p blocks `B[i]` of section 6 and has 128r bytes. It is mixed in two halves of scratch memory,
//! each as long as a part: each step reads one half and writes the other. In the halves, the words of each 64-byte
//! block are in diagonal order, because the mixing works on them in that order.

ghost use Rattle.std.specs.Prelude.{◌≡◌, ℕ, ◌+◌, ◌-◌, ◌*◌, ◌/◌, ◌^◌, ◌%◌, ◌<◌, ◌≤◌, List, length};
ghost use Rattle.std.specs.Fn.{iterate};
ghost use Rattle.prims_core.specs.BlockMix.{block_mix};
ghost use Rattle.prims_core.specs.Diagonals.{in_rows};
ghost use Rattle.prims_core.specs.Memory.{rows_of, HoldsMixings};
ghost use Rattle.kdf_core.specs.Private.Mixing.{AreHalves, IsPower, part_words};
ghost use Rattle.kdf_core.specs.Scrypt.{integerify, mixed_back, mixed_part};
ghost use Rattle.kdf_core.specs.ScryptMessages.{mixed_parts};

use crate::scrypt::UNIT_WORDS;
use prims_core::meter::Meter;
use prims_core::mix::{from_diagonals, mix_xor_diagonals, to_diagonals};
use prims_core::rows::{Rows, fill_by_mixing};
use prims_core::words::{load_words, store_words};

// The number of words of a 64-byte block.
const BLOCK_WORDS: usize = UNIT_WORDS / 2;

/// Replaces each of `count` parts by its ROMix with N rows (RFC 7914, section 6, step 2). The meter counts 2N mixings
/// for each part.
///
/// Preconditions:
///
/// - N, which is `row_count`, is a power of two from 2 to 2^32.
/// - `halves` has the words of two parts, and `rows` has memory for the words of N parts.
/// - `parts` has the bytes of `count` parts.
/// - The meter can count the mixings without overflow.
pub(crate) fn mix_parts<M: Rows>(
    parts: &mut [u8],
    count: usize,
    row_count: usize,
    rows: &mut M,
    halves: &mut [u32],
    meter: &mut Meter,
)
    requires power { (k : ℕ) × IsPower row_count k }
    requires some_block { (r : ℕ) × (1 ≤ r) × (length halves.old ≡ 2 * part_words r) }
    requires whole { length parts.old ≡ 2 * length halves.old * count }
    requires fits { row_count * (length halves.old / 2) ≤ M.room rows.old }
    requires room { meter.old.mixes + 2 * row_count * count < 2 ^ 128 }
    ensures parts { parts.new ≡ mixed_parts row_count (2 * length halves.old) parts.old }
    ensures count { meter.new ≡ record meter.old { mixes = meter.old.mixes + 2 * row_count * count } }
{
    let size = 2 * halves.len();
    'parts: for i in 0..count {
        mix_part(
            &mut parts[size * i..size * i + size],
            row_count,
            rows,
            halves,
            meter,
        );
    }
}

// Replaces a part by its ROMix with N rows (RFC 7914, section 5).
fn mix_part<M: Rows>(
    part: &mut [u8],
    row_count: usize,
    rows: &mut M,
    halves: &mut [u32],
    meter: &mut Meter,
)
    requires power { (k : ℕ) × IsPower row_count k }
    requires some_block { (r : ℕ) × (1 ≤ r) × (length halves.old ≡ 2 * part_words r) }
    requires whole { length part.old ≡ 2 * length halves.old }
    requires fits { row_count * (length halves.old / 2) ≤ M.room rows.old }
    requires room { meter.old.mixes + 2 * row_count < 2 ^ 128 }
    ensures part { part.new ≡ mixed_part row_count part.old }
    ensures kept { M.room rows.new ≡ M.room rows.old }
    ensures count { meter.new ≡ record meter.old { mixes = meter.old.mixes + 2 * row_count } }
{
    let part_words = halves.len() / 2;
    let (x, y) = halves.split_at_mut(part_words);
    load_words(part, x);
    to_diagonals(x);
    fill_by_mixing(rows, row_count, x, y, meter);
    mix_with_rows(rows.words(), row_count, x, y, meter);
    from_diagonals(x);
    store_words(x, part);
}

// Does the N steps of ROMix's second loop (step 3), starting with `x`. The first step writes to `y`, the second to `x`,
// and so on, so no block is copied. N is even, so the result is in `x`.
fn mix_with_rows(table: &[u32], row_count: usize, x: &mut [u32], y: &mut [u32], meter: &mut Meter)
    requires power { (k : ℕ) × IsPower row_count k }
    requires halves { (r : ℕ) × AreHalves r x.old y.old }
    requires whole { length table.now ≡ row_count * length x.old }
    requires room { meter.old.mixes + row_count < 2 ^ 128 }
    ensures mixed { (start : List ℕ) → HoldsMixings (rows_of row_count (length x.old) table.now) row_count start
        → in_rows x.new ≡ iterate (mixed_back row_count start) row_count (in_rows x.old) }
    ensures count { meter.new ≡ record meter.old { mixes = meter.old.mixes + row_count } }
{
    'mixing: for _ in 0..row_count / 2 {
        mix_back(table, row_count, x, y, meter);
        mix_back(table, row_count, y, x, meter);
    }
}

// Does one step of ROMix's second loop: writes scryptBlockMix (X xor V[j]) to `y`, where `x` holds X.
fn mix_back(table: &[u32], row_count: usize, x: &[u32], y: &mut [u32], meter: &mut Meter)
    requires power { (k : ℕ) × IsPower row_count k }
    requires halves { (r : ℕ) × AreHalves r x.now y.old }
    requires whole { length table.now ≡ row_count * length x.now }
    requires room { meter.old.mixes + 1 < 2 ^ 128 }
    ensures mixed { (start : List ℕ) → HoldsMixings (rows_of row_count (length x.now) table.now) row_count start
        → in_rows y.new ≡ mixed_back row_count start (in_rows x.now) }
    ensures count { meter.new ≡ record meter.old { mixes = meter.old.mixes + 1 } }
{
    let start = row_number(x, row_count) * x.len();
    mix_xor_diagonals(x, &table[start..start + x.len()], y, meter);
}

// Returns j, the number of the row that a step of ROMix's second loop uses: Integerify (X) mod N. N is a power of two
// of at most 2^32, so j depends only on the first word of the last block, which is first in diagonal order too.
fn row_number(words: &[u32], row_count: usize) -> usize
    requires power { (k : ℕ) × IsPower row_count k }
    requires some_block { (r : ℕ) × (1 ≤ r) × (length words.now ≡ part_words r) }
    ensures { result ≡ integerify (in_rows words.now) % row_count }
{
    words[words.len() - BLOCK_WORDS] as usize % row_count
}
