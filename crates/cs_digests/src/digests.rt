//! The digests of any number of messages, four at a time.
ghost use Rattle.std.specs.Prelude.{◌≡◌, ◌<◌, ◌≤◌, length, map, IfOk};
ghost use Rattle.sha2.specs.Sha256.{sha256};

use crate::chain::Chain;
use crate::four::{Four, advance};
use std::alloc::{AllocError, Global};

/// The number of messages that are hashed at once.
const FOUR: usize = 4;

/// The messages, with nothing hashed.
fn chains_of<'a>(alloc: Global, texts: &[&'a [u8]]) -> Result<Vec<Chain<'a>>, AllocError>
    ensures { IfOk result (λ chains. map (λ c. c.text.now) chains.items ≡ map (λ t. t.now) texts.now) }
{
    let mut chains = Vec::with_capacity(alloc, texts.len())?;
    for text in texts {
        chains.push(Chain::new(text))?;
    }
    Ok(chains)
}

/// The number of messages at the front that are each longer than half of all those behind them. Hashed beside those,
/// they would leave lanes idle, at the cost of four for one.
fn count_apart(chains: &[Chain<'_>]) -> usize
    ensures { result ≤ length chains.now }
{
    let mut rest: usize = 0;
    for chain in chains {
        rest = rest.wrapping_add(chain.left());
    }
    for i in 0..chains.len() {
        let own = chains[i].left();
        rest = rest.wrapping_sub(own);
        if own <= rest / 2 {
            return i;
        }
    }
    chains.len()
}

/// Of two indices of messages, the one with more blocks left.
fn longer(chains: &[Chain<'_>], a: usize, b: usize) -> usize
    requires { (a < length chains.now) × (b < length chains.now) }
    ensures { result < length chains.now }
{
    if chains[a].left() < chains[b].left() {
        b
    } else {
        a
    }
}

/// The message for a lane: the one that it has while blocks of it are left, then the next one; if there is none,
/// another with blocks left, a second time.
fn message_for(chains: &[Chain<'_>], place: usize, next: &mut usize, other: usize) -> usize
    requires { (place < length chains.now) × (other < length chains.now) }
    ensures { result < length chains.now }
{
    if chains[place].left() > 0 {
        return place;
    }
    let found = *next;
    if found < chains.len() {
        *next = found + 1;
        return found;
    }
    other
}

/// The messages for all four lanes.
fn messages_for(chains: &[Chain<'_>], four: Four, next: &mut usize) -> Four
    requires { (four.0 < length chains.now) × (four.1 < length chains.now) × (four.2 < length chains.now) × (four.3 < length chains.now) }
    ensures { (result.0 < length chains.now) × (result.1 < length chains.now) × (result.2 < length chains.now) × (result.3 < length chains.now) }
{
    let (a, b, c, d) = four;
    let most = longer(chains, longer(chains, a, b), longer(chains, c, d));
    (
        message_for(chains, a, next, most),
        message_for(chains, b, next, most),
        message_for(chains, c, next, most),
        message_for(chains, d, next, most),
    )
}

/// Hashes blocks of the messages that are not set apart, four messages at a time, as long as two have blocks left.
fn advance_all(chains: &mut [Chain<'_>])
    ensures { map (λ c. c.text.now) chains.new ≡ map (λ c. c.text.now) chains.old }
{
    let from = count_apart(chains);
    if from == chains.len() {
        return;
    }
    let last = chains.len() - 1;
    let count = chains.len() - from;
    let mut four = (
        from,
        last.min(from + 1),
        last.min(from + 2),
        last.min(from + 3),
    );
    let mut next = from + count.min(FOUR);
    for _ in 0..count {
        four = messages_for(chains, four, &mut next);
        if four.0 != four.1 || four.0 != four.2 || four.0 != four.3 {
            advance(chains, four);
        }
    }
}

/// The digest of each message.
fn finish_each(alloc: Global, chains: &[Chain<'_>]) -> Result<Vec<[u8; 32]>, AllocError>
    ensures { IfOk result (λ digests. digests.items ≡ map (λ c. sha256 c.text.now) chains.now) }
{
    let mut digests = Vec::with_capacity(alloc, chains.len())?;
    for chain in chains {
        digests.push(chain.digest())?;
    }
    Ok(digests)
}

/// The digests of messages, in their order. If the longest come first, this takes about half the time of hashing one
/// after the other, except for messages that are longer than half of all others.
pub fn digests_of(alloc: Global, texts: &[&[u8]]) -> Result<Vec<[u8; 32]>, AllocError>
    ensures { IfOk result (λ digests. digests.items ≡ map (λ t. sha256 t.now) texts.now) }
{
    let mut chains = chains_of(alloc, texts)?;
    let all = chains.as_mut_slice();
    advance_all(all);
    finish_each(alloc, all)
}
