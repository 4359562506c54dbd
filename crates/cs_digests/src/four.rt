//! Hashing blocks of four messages at once.
ghost use Rattle.std.specs.Prelude.{◌≡◌, ℕ, ◌*◌, ◌+◌, ◌<◌, ◌≤◌, length, map};
ghost use Rattle.sha2.specs.Sha256.{hash_after, initial_hash_256};
ghost use Rattle.cs_digests.specs.Lanes.{lane, of_four};

use crate::chain::Chain;
use crate::constants::BLOCK;
use crate::lanes::{beside, lane_of};
use crate::rounds::compress;
use crate::words::all;
use std::simd::u32x4;

/// The hash values of four messages after `blocks` more blocks of each.
fn in_step(c0: Chain<'_>, c1: Chain<'_>, c2: Chain<'_>, c3: Chain<'_>, blocks: usize) -> [u32x4; 8]
    requires { ((c0.done + blocks) * 64 ≤ length c0.text.now) × ((c1.done + blocks) * 64 ≤ length c1.text.now)
        × ((c2.done + blocks) * 64 ≤ length c2.text.now) × ((c3.done + blocks) * 64 ≤ length c3.text.now) }
    ensures first { lane 0 result ≡ hash_after initial_hash_256 c0.entry.text.now (c0.entry.done + blocks) }
    ensures second { lane 1 result ≡ hash_after initial_hash_256 c1.entry.text.now (c1.entry.done + blocks) }
    ensures third { lane 2 result ≡ hash_after initial_hash_256 c2.entry.text.now (c2.entry.done + blocks) }
    ensures fourth { lane 3 result ≡ hash_after initial_hash_256 c3.entry.text.now (c3.entry.done + blocks) }
{
    let mut state = beside(c0.hash, c1.hash, c2.hash, c3.hash);
    let mut words = [all(0); 64];
    for i in 0..blocks {
        let (a0, a1) = (BLOCK * (c0.done + i), BLOCK * (c1.done + i));
        let (a2, a3) = (BLOCK * (c2.done + i), BLOCK * (c3.done + i));
        compress(
            &mut state,
            &mut words,
            &c0.text[a0..a0 + BLOCK],
            &c1.text[a1..a1 + BLOCK],
            &c2.text[a2..a2 + BLOCK],
            &c3.text[a3..a3 + BLOCK],
        );
    }
    state
}

/// The indices of four messages.
pub type Four = (usize, usize, usize, usize);

/// Hashes as many blocks of each of four messages as the shortest of them has left.
pub fn advance(chains: &mut [Chain<'_>], four: Four)
    requires { (four.0 < length chains.now) × (four.1 < length chains.now) × (four.2 < length chains.now) × (four.3 < length chains.now) }
    ensures { map (λ c. c.text.now) chains.new ≡ map (λ c. c.text.now) chains.old }
{
    let (p0, p1, p2, p3) = four;
    let (c0, c1, c2, c3) = (chains[p0], chains[p1], chains[p2], chains[p3]);
    let blocks = c0.left().min(c1.left()).min(c2.left()).min(c3.left());
    let state = in_step(c0, c1, c2, c3, blocks);
    chains[p0] = c0.after(blocks, lane_of(&state, 0));
    chains[p1] = c1.after(blocks, lane_of(&state, 1));
    chains[p2] = c2.after(blocks, lane_of(&state, 2));
    chains[p3] = c3.after(blocks, lane_of(&state, 3));
}
