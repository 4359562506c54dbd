//! A loss that is tried, as a word that threads share.
use cs_schema::Loss;

/// The word of a loss: a bit for each site, and the lowest bit, which is always set.
pub fn word_of(loss: Loss) -> u64 {
    let mut word = 1u64;
    for site in 1..17u8 {
        if loss.has(site) {
            word |= 1 << site;
        }
    }
    word
}

/// The loss of a word, if it is one.
pub fn loss_of(word: u64) -> Option<Loss> {
    if word == 0 {
        return None;
    }
    let mut loss = Loss::none();
    for site in 1..17u8 {
        if (word >> site) % 2 == 1 {
            loss = loss.with(site);
        }
    }
    Some(loss)
}
