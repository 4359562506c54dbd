//! The rounds of SHA-256 over a block (FIPS 180-4, 6.2.2), for four messages at once.
ghost use Rattle.std.specs.Prelude.{◌≡◌, ℕ, List, ◌+◌, ◌<◌, ◌≤◌, length, slice_index};
ghost use Rattle.sha2.specs.Sha256.{add32, compress, round, rounds, schedule};
ghost use Rattle.cs_digests.specs.Keys.{AreKeyed};
ghost use Rattle.cs_digests.specs.Lanes.{lane, of_four};

use crate::schedule::make_keyed;
use crate::words::{add, big_sigma0, big_sigma1, ch, maj};
use std::simd::u32x4;

/// One round. `keys` are its words with the round constant added.
#[inline(always)]
fn round(v: [u32x4; 8], keys: u32x4) -> [u32x4; 8]
    ensures { (j k w : ℕ) → j < 4 → slice_index keys j ≡ add32 k w → lane j result ≡ round (lane j v) k w }
{
    let [a, b, c, d, e, f, g, h] = v;
    let temp1 = add(add(add(h, big_sigma1(e)), ch(e, f, g)), keys);
    let temp2 = add(big_sigma0(a), maj(a, b, c));
    [add(temp1, temp2), a, b, c, add(d, temp1), e, f, g]
}

/// The state after round `t`.
#[inline(always)]
fn step(v: [u32x4; 8], w: &[u32x4; 64], t: usize) -> [u32x4; 8]
    requires { t < 64 }
    ensures { (j : ℕ) (b h : List ℕ) → j < 4 → AreKeyed b w.now j 64 → lane j v ≡ rounds h (schedule b 48) t
        → lane j result ≡ rounds h (schedule b 48) (t + 1) }
{
    round(v, w[t])
}

/// Four rounds.
#[inline(always)]
fn four_steps(v: [u32x4; 8], w: &[u32x4; 64], t: usize) -> [u32x4; 8]
    requires { t + 4 ≤ 64 }
    ensures { (j : ℕ) (b h : List ℕ) → j < 4 → AreKeyed b w.now j 64 → lane j v ≡ rounds h (schedule b 48) t
        → lane j result ≡ rounds h (schedule b 48) (t + 4) }
{
    let v = step(v, w, t);
    let v = step(v, w, t + 1);
    let v = step(v, w, t + 2);
    step(v, w, t + 3)
}

/// Runs the rounds over a block of each message and adds the result to the hash values. `w` is scratch space for the
/// words.
pub fn compress(
    state: &mut [u32x4; 8],
    w: &mut [u32x4; 64],
    b0: &[u8],
    b1: &[u8],
    b2: &[u8],
    b3: &[u8],
)
    requires { (length b0.now ≡ 64) × (length b1.now ≡ 64) × (length b2.now ≡ 64) × (length b3.now ≡ 64) }
    ensures { (j : ℕ) → j < 4 → lane j state.new ≡ compress (lane j state.old) (of_four b0.now b1.now b2.now b3.now j) }
{
    make_keyed(w, b0, b1, b2, b3);
    let mut v = *state;
    // after eight rounds each variable is back in its place
    'rounds: for turn in 0..8 {
        v = four_steps(v, w, 8 * turn);
        v = four_steps(v, w, 8 * turn + 4);
    }
    *state = [
        add(state[0], v[0]),
        add(state[1], v[1]),
        add(state[2], v[2]),
        add(state[3], v[3]),
        add(state[4], v[4]),
        add(state[5], v[5]),
        add(state[6], v[6]),
        add(state[7], v[7]),
    ];
}
