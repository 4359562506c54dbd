//! The hash values of four messages, one to a lane.
ghost use Rattle.std.specs.Prelude.{◌≡◌, ◌<◌};
ghost use Rattle.cs_digests.specs.Lanes.{lane};

use std::simd::u32x4;

/// The hash values of four messages.
pub fn beside(h0: [u32; 8], h1: [u32; 8], h2: [u32; 8], h3: [u32; 8]) -> [u32x4; 8]
    ensures first { lane 0 result ≡ h0 }
    ensures second { lane 1 result ≡ h1 }
    ensures third { lane 2 result ≡ h2 }
    ensures fourth { lane 3 result ≡ h3 }
{
    let [a0, b0, c0, d0, e0, f0, g0, i0] = h0;
    let [a1, b1, c1, d1, e1, f1, g1, i1] = h1;
    let [a2, b2, c2, d2, e2, f2, g2, i2] = h2;
    let [a3, b3, c3, d3, e3, f3, g3, i3] = h3;
    [
        u32x4::from_array([a0, a1, a2, a3]),
        u32x4::from_array([b0, b1, b2, b3]),
        u32x4::from_array([c0, c1, c2, c3]),
        u32x4::from_array([d0, d1, d2, d3]),
        u32x4::from_array([e0, e1, e2, e3]),
        u32x4::from_array([f0, f1, f2, f3]),
        u32x4::from_array([g0, g1, g2, g3]),
        u32x4::from_array([i0, i1, i2, i3]),
    ]
}

/// The hash value of one message.
pub fn lane_of(state: &[u32x4; 8], j: usize) -> [u32; 8]
    requires { j < 4 }
    ensures { result ≡ lane j state.now }
{
    [
        state[0].to_array()[j],
        state[1].to_array()[j],
        state[2].to_array()[j],
        state[3].to_array()[j],
        state[4].to_array()[j],
        state[5].to_array()[j],
        state[6].to_array()[j],
        state[7].to_array()[j],
    ]
}
