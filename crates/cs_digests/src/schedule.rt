//! The message schedule of SHA-256 (FIPS 180-4, 6.2.2, step 1) for four blocks at once. It needs no hash value, so the
//! blocks may belong to one message or to four.
ghost use Rattle.std.specs.Prelude.{◌≡◌, ℕ, List, ◌+◌, ◌<◌, ◌≤◌, length, slice_index};
ghost use Rattle.sha2.specs.Sha256.{add32, small_sigma0, small_sigma1, word_at};
ghost use Rattle.cs_digests.specs.Lanes.{of_four};
ghost use Rattle.cs_digests.specs.Keys.{AreKeyed, AreScheduled};

use crate::constants::ROUND_CONSTANTS;
use crate::words::{add, all, small_sigma0, small_sigma1};
use std::simd::u32x4;

/// The word at byte `i` of a block.
#[inline(always)]
fn word_at(block: &[u8], i: usize) -> u32
    requires { i + 4 ≤ length block.now }
    ensures { result ≡ word_at block.now i }
{
    u32::from_be_bytes([block[i], block[i + 1], block[i + 2], block[i + 3]])
}

/// The words at byte `i` of four blocks.
#[inline(always)]
fn words_at(b0: &[u8], b1: &[u8], b2: &[u8], b3: &[u8], i: usize) -> u32x4
    requires { (i + 4 ≤ length b0.now) × (i + 4 ≤ length b1.now) × (i + 4 ≤ length b2.now) × (i + 4 ≤ length b3.now) }
    ensures { (j : ℕ) → j < 4 → slice_index result j ≡ word_at (of_four b0.now b1.now b2.now b3.now j) i }
{
    u32x4::from_array([
        word_at(b0, i),
        word_at(b1, i),
        word_at(b2, i),
        word_at(b3, i),
    ])
}

/// A word, from those 2, 7, 15 and 16 before it.
#[inline(always)]
fn word_after(w2: u32x4, w7: u32x4, w15: u32x4, w16: u32x4) -> u32x4
    ensures { (j : ℕ) → j < 4 → slice_index result j
        ≡ add32 (add32 (add32 (small_sigma1 (slice_index w2 j)) (slice_index w7 j)) (small_sigma0 (slice_index w15 j)))
        (slice_index w16 j) }
{
    add(add(add(small_sigma1(w2), w7), small_sigma0(w15)), w16)
}

/// Computes the words of four blocks.
#[inline(always)]
fn make_words(w: &mut [u32x4; 64], b0: &[u8], b1: &[u8], b2: &[u8], b3: &[u8])
    requires { (length b0.now ≡ 64) × (length b1.now ≡ 64) × (length b2.now ≡ 64) × (length b3.now ≡ 64) }
    ensures { (j : ℕ) → j < 4 → AreScheduled (of_four b0.now b1.now b2.now b3.now j) w.new j 64 }
{
    'load: for i in 0..16 {
        w[i] = words_at(b0, b1, b2, b3, 4 * i);
    }
    'schedule: for t in 16..64 {
        w[t] = word_after(w[t - 2], w[t - 7], w[t - 15], w[t - 16]);
    }
}

/// Adds the constant of its round to each word.
#[inline(always)]
fn add_keys(w: &mut [u32x4; 64])
    ensures { (b : List ℕ) (j : ℕ) → j < 4 → AreScheduled b w.old j 64 → AreKeyed b w.new j 64 }
{
    'keys: for t in 0..64 {
        w[t] = add(all(ROUND_CONSTANTS[t]), w[t]);
    }
}

/// Computes the words of four blocks, each with its round constant added. The old contents of `w` do not matter.
#[inline(always)]
pub fn make_keyed(w: &mut [u32x4; 64], b0: &[u8], b1: &[u8], b2: &[u8], b3: &[u8])
    requires { (length b0.now ≡ 64) × (length b1.now ≡ 64) × (length b2.now ≡ 64) × (length b3.now ≡ 64) }
    ensures { (j : ℕ) → j < 4 → AreKeyed (of_four b0.now b1.now b2.now b3.now j) w.new j 64 }
{
    make_words(w, b0, b1, b2, b3);
    add_keys(w);
}
