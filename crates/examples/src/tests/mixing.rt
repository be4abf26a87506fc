//! Tests of Salsa20/8, of scrypt's mixing of blocks, and of the memory that scrypt works in.
ghost use Rattle.std.specs.Prelude.{◌≡◌, ◌+◌, ◌*◌, ◌≤◌, length, vec_capacity, IfOk};
ghost use Rattle.prims_core.specs.Memory.{HasShape};

use super::{counts, want};
use prims_core::counted::{Counted, CountedSha256};
use prims_core::meter::Meter;
use prims_core::mix::{block_mix, from_diagonals, mix_xor_diagonals, to_diagonals};
use prims_core::rows::{LentRows, Rows, fill_by_mixing};
use prims_core::salsa::salsa8;
use prims_core::scratch::{ByteScratch, WordScratch, lent_bytes, lent_words};
use prims_core::table::Table;
use prims_core::words::{load_words, store_words};
use std::alloc::{AllocError, Global};
use std::process::Abort;
use std::test::Fail;

// The input of the test vector in RFC 7914, section 8.
const BLOCK: [u8; 64] = [
    0x7e, 0x87, 0x9a, 0x21, 0x4f, 0x3e, 0xc9, 0x86, 0x7c, 0xa9, 0x40, 0xe6, 0x41, 0x71, 0x8f, 0x26,
    0xba, 0xee, 0x55, 0x5b, 0x8c, 0x61, 0xc1, 0xb5, 0x0d, 0xf8, 0x46, 0x11, 0x6d, 0xcd, 0x3b, 0x1d,
    0xee, 0x24, 0xf3, 0x19, 0xdf, 0x9b, 0x3d, 0x85, 0x14, 0x12, 0x1e, 0x4b, 0x5a, 0xc5, 0xaa, 0x32,
    0x76, 0x02, 0x1d, 0x29, 0x09, 0xc7, 0x48, 0x29, 0xed, 0xeb, 0xc6, 0x8d, 0xb8, 0xb8, 0xc2, 0x5e,
];

// Returns the Salsa20/8 of a block.
fn salsa8_of(block: &[u8; 64]) -> [u8; 64] {
    let mut words = [0; 16];
    load_words(block, &mut words);
    salsa8(&mut words);
    let mut bytes = [0; 64];
    store_words(&words, &mut bytes);
    bytes
}

#[test]
fn a_block(rt: HostRuntime) -> Result<(), Fail> {
    let told = hex::encode(rt.alloc(), salsa8_of(&BLOCK))?;
    let wanted = "a41f859c6608cc993b81cacb020cef05044b2181a2fd337dfd7b1c6396682f29\
        b4393168e3c9e6bcfe6bc5b7a06d96bae424cc102c91745c24ad673dc7618f81";
    want(&rt, told.as_str(), wanted, "RFC 7914, section 8");
    want(&rt, salsa8_of(&[0; 64]), [0; 64], "zeros");
    Ok(())
}

// `salsa8`, which works in lanes, gives what `word_by_word` gives for 64 blocks. The first block is the words 0 to 15,
// and each later one is the result for the block before it.
#[test]
fn lanes_as_word_by_word(rt: HostRuntime) {
    let mut block = [0, 1, 2, 3, 4, 5, 6, 7, 8, 9, 10, 11, 12, 13, 14, 15];
    for turn in 0..64_u32 {
        let mut words = block;
        salsa8(&mut words);
        block = word_by_word(block);
        assert_eq!(rt; words, block, "block {turn}");
    }
}

// Returns the Salsa20/8 of a block, computed without lanes: each quarter round has four words.
fn word_by_word(block: [u32; 16]) -> [u32; 16] {
    let mut x = block;
    for _round in 0..4_u32 {
        x = double_round(x);
    }
    let mut sum = block;
    for k in 0..16 {
        sum[k] = sum[k].wrapping_add(x[k]);
    }
    sum
}

// Returns the block after the quarter rounds of its columns and then of its rows. The remainders change no index, but
// show the checker that each index is below 16.
fn double_round(x: [u32; 16]) -> [u32; 16] {
    let mut x = x;
    for [a, b, c, d] in [
        [0, 4, 8, 12],
        [5, 9, 13, 1],
        [10, 14, 2, 6],
        [15, 3, 7, 11],
        [0, 1, 2, 3],
        [5, 6, 7, 4],
        [10, 11, 8, 9],
        [15, 12, 13, 14],
    ] {
        x[b % 16] ^= x[a % 16].wrapping_add(x[d % 16]).rotate_left(7);
        x[c % 16] ^= x[b % 16].wrapping_add(x[a % 16]).rotate_left(9);
        x[d % 16] ^= x[c % 16].wrapping_add(x[b % 16]).rotate_left(13);
        x[a % 16] ^= x[d % 16].wrapping_add(x[c % 16]).rotate_left(18);
    }
    x
}

// The input of the test vector in RFC 7914, section 9.
const BLOCKS: [u8; 128] = [
    0xf7, 0xce, 0x0b, 0x65, 0x3d, 0x2d, 0x72, 0xa4, 0x10, 0x8c, 0xf5, 0xab, 0xe9, 0x12, 0xff, 0xdd,
    0x77, 0x76, 0x16, 0xdb, 0xbb, 0x27, 0xa7, 0x0e, 0x82, 0x04, 0xf3, 0xae, 0x2d, 0x0f, 0x6f, 0xad,
    0x89, 0xf6, 0x8f, 0x48, 0x11, 0xd1, 0xe8, 0x7b, 0xcc, 0x3b, 0xd7, 0x40, 0x0a, 0x9f, 0xfd, 0x29,
    0x09, 0x4f, 0x01, 0x84, 0x63, 0x95, 0x74, 0xf3, 0x9a, 0xe5, 0xa1, 0x31, 0x52, 0x17, 0xbc, 0xd7,
    0x89, 0x49, 0x91, 0x44, 0x72, 0x13, 0xbb, 0x22, 0x6c, 0x25, 0xb5, 0x4d, 0xa8, 0x63, 0x70, 0xfb,
    0xcd, 0x98, 0x43, 0x80, 0x37, 0x46, 0x66, 0xbb, 0x8f, 0xfc, 0xb5, 0xbf, 0x40, 0xc2, 0x54, 0xb0,
    0x67, 0xd2, 0x7c, 0x51, 0xce, 0x4a, 0xd5, 0xfe, 0xd8, 0x29, 0xc9, 0x0b, 0x50, 0x5a, 0x57, 0x1b,
    0x7f, 0x4d, 0x1c, 0xad, 0x6a, 0x52, 0x3c, 0xda, 0x77, 0x0e, 0x67, 0xbc, 0xea, 0xaf, 0x7e, 0x89,
];

// The output of the test vector in RFC 7914, section 9.
const MIXED: [u8; 128] = [
    0xa4, 0x1f, 0x85, 0x9c, 0x66, 0x08, 0xcc, 0x99, 0x3b, 0x81, 0xca, 0xcb, 0x02, 0x0c, 0xef, 0x05,
    0x04, 0x4b, 0x21, 0x81, 0xa2, 0xfd, 0x33, 0x7d, 0xfd, 0x7b, 0x1c, 0x63, 0x96, 0x68, 0x2f, 0x29,
    0xb4, 0x39, 0x31, 0x68, 0xe3, 0xc9, 0xe6, 0xbc, 0xfe, 0x6b, 0xc5, 0xb7, 0xa0, 0x6d, 0x96, 0xba,
    0xe4, 0x24, 0xcc, 0x10, 0x2c, 0x91, 0x74, 0x5c, 0x24, 0xad, 0x67, 0x3d, 0xc7, 0x61, 0x8f, 0x81,
    0x20, 0xed, 0xc9, 0x75, 0x32, 0x38, 0x81, 0xa8, 0x05, 0x40, 0xf6, 0x4c, 0x16, 0x2d, 0xcd, 0x3c,
    0x21, 0x07, 0x7c, 0xfe, 0x5f, 0x8d, 0x5f, 0xe2, 0xb1, 0xa4, 0x16, 0x8f, 0x95, 0x36, 0x78, 0xb7,
    0x7d, 0x3b, 0x3d, 0x80, 0x3b, 0x60, 0xe4, 0xab, 0x92, 0x09, 0x96, 0xe5, 0x9b, 0x4d, 0x53, 0xb6,
    0x5d, 0x2a, 0x22, 0x58, 0x77, 0xd5, 0xed, 0xf5, 0x84, 0x2c, 0xb9, 0xf1, 0x4e, 0xef, 0xe4, 0x25,
];

// Returns the scryptBlockMix of two blocks.
fn mixed(blocks: &[u8; 128], meter: &mut Meter) -> [u8; 128]
    requires { meter.old.mixes ≡ 0 }
{
    let mut words = [0; 32];
    load_words(blocks, &mut words);
    let mut mixed = [7; 32];
    block_mix(&words, &mut mixed, meter);
    let mut bytes = [0; 128];
    store_words(&mixed, &mut bytes);
    bytes
}

#[test]
fn blocks(rt: HostRuntime) {
    let told = mixed(&BLOCKS, &mut Meter::new());
    want(&rt, told, MIXED, "RFC 7914, section 9");
    let mut meter = Meter::new();
    want(&rt, mixed(&[0; 128], &mut meter), [0; 128], "zeros");
    want(&rt, counts(&meter), [0, 0, 1, 0, 0], "a mixing");
}

// Returns the SHA-256 of words, each with its lowest byte first.
fn digest_of(alloc: Global, words: &[u32]) -> Result<String, Fail> {
    let mut bytes = Vec::new(alloc);
    for word in words {
        bytes.extend_from_slice(&word.to_le_bytes())?;
    }
    let mut meter = Meter::new();
    let mut running = CountedSha256::begin();
    running.feed(&mut meter, bytes.as_slice());
    Ok(hex::encode(alloc, running.finish(&mut meter).as_slice())?)
}

// Returns the words of 2r blocks whose bytes are 3, 10, 17 and so on, modulo 256.
fn rising_blocks(alloc: Global, r: usize) -> Result<Vec<u32>, AllocError>
    requires { r ≤ 6 }
    ensures { IfOk result (λ words. length words.items ≡ 32 * r) }
{
    let mut bytes = vec![in alloc; 3u8; 128 * r]?;
    for i in 1..128 * r {
        bytes[i] = bytes[i - 1].wrapping_add(7);
    }
    let mut words = vec![in alloc; 0; 32 * r]?;
    load_words(&bytes, &mut words);
    Ok(words)
}

// Asserts the digest of the words after the 2r blocks of `rising_blocks` are mixed.
fn want_mixed(rt: &impl Abort, alloc: Global, r: usize, wanted: &str) -> Result<(), Fail> {
    // The prover needs these bounds: `rising_blocks` requires the upper one, and `block_mix` the lower one.
    assert!(rt; 1 <= r && r <= 6);
    let words = rising_blocks(alloc, r)?;
    let mut mixed = vec![in alloc; 7; 32 * r]?;
    block_mix(&words, &mut mixed, &mut Meter::new());
    want(rt, digest_of(alloc, &mixed)?.as_str(), wanted, "blocks");
    want_xor_mixed(rt, alloc, r, wanted)
}

// Splits words into two parts whose XOR is the words. One part is left in `words`. The other is written to `row`: the
// numbers of a linear congruential generator.
fn split(words: &mut [u32], row: &mut [u32])
    requires { length words.old ≡ length row.old }
{
    let mut next = 0x9e37_79b9u32;
    for i in 0..words.len() {
        row[i] = next;
        words[i] ^= next;
        next = next.wrapping_mul(0x0019_660d).wrapping_add(1);
    }
}

// Asserts what `mix_xor_diagonals` gives for two parts whose XOR is the 2r blocks of `rising_blocks`.
fn want_xor_mixed(rt: &impl Abort, alloc: Global, r: usize, wanted: &str) -> Result<(), Fail>
    requires { (1 ≤ r) × (r ≤ 6) }
{
    let mut words = rising_blocks(alloc, r)?;
    let mut row = vec![in alloc; 0; 32 * r]?;
    split(&mut words, &mut row);
    to_diagonals(&mut words);
    to_diagonals(&mut row);
    let mut mixed = vec![in alloc; 7; 32 * r]?;
    let mut meter = Meter::new();
    mix_xor_diagonals(&words, &row, &mut mixed, &mut meter);
    from_diagonals(&mut mixed);
    want(rt, digest_of(alloc, &mixed)?.as_str(), wanted, "diagonals");
    want(rt, counts(&meter), [0, 0, 1, 0, 0], "a mixing");
    Ok(())
}

// Each expected value is the SHA-256 of the mixed blocks. A Python program outside this repository computed it, which
// also reproduces the test vector of RFC 7914, section 9.
#[test]
fn more_blocks(rt: HostRuntime) -> Result<(), Fail> {
    for &(r, wanted) in &[
        (
            2,
            "badb34e22ec69e60102ad17ee68c6e2632abcc7ec97dd3c296864606254f62bf",
        ),
        (
            3,
            "760daeb4945129570c54b981e214cfc06e5a37dd309663a8994aad3d752aee2e",
        ),
        (
            6,
            "f218b066a7031133a5c10c4247f91bb31f8ee96d926cdc3614dce6bcc961f39e",
        ),
    ] {
        want_mixed(&rt, rt.alloc(), r, wanted)?;
    }
    Ok(())
}

// Each word of the block is the number of its place, so the result lists the places of the words in diagonal order.
#[test]
fn a_block_by_its_diagonals(rt: HostRuntime) {
    let rows = [0, 1, 2, 3, 4, 5, 6, 7, 8, 9, 10, 11, 12, 13, 14, 15];
    let mut words = rows;
    to_diagonals(&mut words);
    let diagonals = [0, 5, 10, 15, 4, 9, 14, 3, 8, 13, 2, 7, 12, 1, 6, 11];
    want(&rt, words, diagonals, "diagonals");
    from_diagonals(&mut words);
    want(&rt, words, rows, "rows");
}

#[test]
fn a_table(rt: HostRuntime) -> Result<(), Fail> {
    let mut meter = Meter::new();
    let mut table = Table::new(rt.alloc(), 3, 32, &mut meter)?;
    let (zeros, row) = (
        [0; 32],
        [
            1, 2, 3, 4, 5, 6, 7, 8, 9, 10, 11, 12, 13, 14, 15, 16, 17, 18, 19, 20, 21, 22, 23, 24,
            25, 26, 27, 28, 29, 30, 31, 32,
        ],
    );
    table.set_row(1, &row);
    want(&rt, table.row(0), zeros.as_slice(), "the first row");
    want(&rt, table.row(1), row.as_slice(), "the second row");
    want(&rt, table.row(2), zeros.as_slice(), "the third row");
    want(&rt, counts(&meter), [0, 0, 0, 384, 0], "memory");
    Ok(())
}

#[test]
fn a_table_of_long_rows(rt: HostRuntime) -> Result<(), Fail> {
    let mut table = Table::new(rt.alloc(), 3, 1025, &mut Meter::new())?;
    let (zeros, ones) = ([0; 1025], [1; 1025]);
    table.set_row(1, &ones);
    want(&rt, table.row(0), zeros.as_slice(), "the first row");
    want(&rt, table.row(1), ones.as_slice(), "the second row");
    want(&rt, table.row(2), zeros.as_slice(), "the third row");
    Ok(())
}

// Returns the words of two blocks, each in diagonal order.
fn on_diagonals(blocks: &[u8; 128]) -> [u32; 32] {
    let mut words = [0; 32];
    load_words(blocks, &mut words);
    to_diagonals(&mut words);
    words
}

// Fills two rows, the blocks and the blocks mixed once, and returns the blocks mixed twice.
fn fill<R: Rows>(rows: &mut R, blocks: &[u32; 32], meter: &mut Meter) -> [u32; 32]
    requires fits { 64 ≤ R.room rows.old }
    requires room { meter.old.mixes ≤ 2 }
    ensures whole { length (R.words rows.new) ≡ 64 }
    ensures kept { R.room rows.new ≡ R.room rows.old }
    ensures count { meter.new ≡ record meter.old { mixes = meter.old.mixes + 2 } }
{
    let (mut x, mut y) = (*blocks, [7; 32]);
    fill_by_mixing(rows, 2, &mut x, &mut y, meter);
    x
}

// Asserts that the rows are `first` and `second`.
fn want_rows<R: Rows>(
    rt: &impl Abort,
    rows: &R,
    first: &[u32; 32],
    second: &[u32; 32],
    what: &str,
) {
    let mut both = [0; 64];
    both[..32].copy_from_slice(first);
    both[32..].copy_from_slice(second);
    want(rt, rows.words(), both.as_slice(), what);
}

// Asserts what the first loop of scryptROMix does, twice in the same memory. The blocks are those of RFC 7914, section
// 9.
fn want_filled<R: Rows>(rt: &impl Abort, rows: &mut R)
    requires { 64 ≤ R.room rows.old }
{
    let (first, second) = (on_diagonals(&BLOCKS), on_diagonals(&MIXED));
    let third = on_diagonals(&mixed(&MIXED, &mut Meter::new()));
    let mut meter = Meter::new();
    let next = fill(rows, &first, &mut meter);
    want(rt, next, third, "after the rows");
    want_rows(rt, rows, &first, &second, "filled");
    let _ = fill(rows, &second, &mut meter);
    want_rows(rt, rows, &second, &third, "filled already");
    want(rt, counts(&meter), [0, 0, 4, 0, 0], "work");
}

// Returns the memory of a table with two rows.
fn memory_of(table: Table) -> Vec<u32>
    requires shape { HasShape table 2 32 }
    ensures { 64 ≤ vec_capacity result }
{
    table.into_words()
}

#[test]
fn a_table_filled_by_mixing(rt: HostRuntime) -> Result<(), Fail> {
    let table = Table::new(rt.alloc(), 2, 32, &mut Meter::new())?;
    want_filled(&rt, &mut memory_of(table));
    let (mut words, mut meter) = ([7; 64], Meter::new());
    want_filled(&rt, &mut LentRows::new(&mut words, &mut meter));
    want(&rt, counts(&meter), [0, 0, 0, 256, 0], "memory");
    Ok(())
}

#[test]
fn memory_that_is_counted(rt: HostRuntime) -> Result<(), Fail> {
    let mut meter = Meter::new();
    let table = Table::new(rt.alloc(), 2, 32, &mut meter)?;
    let mut bytes = ByteScratch::new(rt.alloc(), 128, &mut meter)?;
    let mut words = WordScratch::new(rt.alloc(), 64, &mut meter)?;
    want(&rt, counts(&meter), [0, 0, 0, 256, 128 + 256], "memory");
    want(&rt, table.row(1), [0; 32].as_slice(), "a row");
    want_bytes(&rt, &mut bytes);
    want_words(&rt, &mut words);
    lent_bytes(&mut [0; 3], &mut meter)[2] = 255;
    lent_words(&mut [0; 5], &mut meter)[4] = 255;
    want(&rt, counts(&meter), [0, 0, 0, 256, 384 + 23], "memory");
    Ok(())
}

// Asserts that the bytes of scratch memory are zeros at first, and keep what is written to them.
fn want_bytes(rt: &impl Abort, bytes: &mut ByteScratch)
    requires { length bytes.old ≡ 128 }
{
    want(rt, bytes.bytes(), [0; 128].as_slice(), "bytes");
    bytes.bytes_mut()[127] = 255;
    let last = (bytes.bytes()[126], bytes.bytes()[127]);
    want(rt, last, (0, 255), "bytes");
}

// Asserts that the words of scratch memory are zeros at first, and keep what is written to them.
fn want_words(rt: &impl Abort, words: &mut WordScratch)
    requires { length words.old ≡ 64 }
{
    want(rt, words.words(), [0; 64].as_slice(), "words");
    words.words_mut()[63] = 0xffff_ffff;
    let last = (words.words()[62], words.words()[63]);
    want(rt, last, (0, 0xffff_ffff), "words");
}
