//! A loss of sites.
use crate::limits::SITES;
use std::fmt;
use std::marker::Model;

/// A set of sites, numbered 1 to 16, in one word.
#[derive(Clone, Copy, Debug)]
pub struct Loss {
    bits: u16,
}

impl Model for Loss {
    ghost use Rattle.std.specs.Prelude.{ℕ, List, ◌<◌, ◌^◌};
    ghost use Rattle.cs_schema.specs.Losses.{sites_from, word_of};
    ghost use Rattle.cs_schema.specs.LossBits.{same_word};

    ghost Value = { List ℕ };

    ghost view = { λ l. sites_from 16 1 l.bits };

    ghost invariant = { λ l. l.bits < 2 ^ 16 };

    ghost inverse = { λ sites. record { bits = word_of sites } };

    ghost inverse_ok = { λ l h i. record { bits = same_word l.bits h i } };
}

impl Loss {
    ghost use Rattle.std.specs.Prelude.{◌≡◌, ◌≤◌, ◌==◌, ◌||◌, ℕ, [], length};
    ghost use Rattle.std.specs.Ordering.{nat_cmp};
    ghost use Rattle.cs_schema.specs.Lists.{member};
    ghost use Rattle.cs_schema.specs.Losses.{IsSites};
    ghost use Rattle.cs_schema.specs.Order.{placed};

    /// The empty loss.
    pub fn none() -> Loss
        ensures { result ≡ [] }
    {
        Loss { bits: 0 }
    }

    /// Whether the site is lost.
    pub fn has(self, site: u8) -> bool
        requires low { 1 ≤ site }
        requires high { site ≤ 16 }
        ensures value { result ≡ member self site }
        ensures sites { IsSites self }
    {
        (self.bits >> (site - 1)) % 2 == 1
    }

    /// This loss and one more site.
    pub fn with(self, site: u8) -> Loss
        requires low { 1 ≤ site }
        requires high { site ≤ 16 }
        ensures place { result ≡ placed nat_cmp site self }
        ensures members { (s : ℕ) → member result s ≡ (s == site || member self s) }
    {
        Loss {
            bits: self.bits | (1 << (site - 1)),
        }
    }

    /// The number of lost sites.
    pub fn count(self) -> u8
        ensures count { result ≡ length self }
        ensures sites { IsSites self }
    {
        let bits = self.bits;
        let mut count = 0;
        for bit in 0..16u8 {
            if (bits >> bit) % 2 == 1 {
                count += 1;
            }
        }
        count
    }
}

impl PartialEq for Loss {
    ghost use Rattle.std.specs.Prelude.{nat_eq};
    ghost use Rattle.std.specs.Cmp.{partial_equiv_from_equiv};
    ghost use Rattle.std.specs.Cmp.Lexicographic.{pointwise, nat_list_eq_equiv};

    ghost eq = { λ a b. pointwise nat_eq a b };

    ghost laws = { partial_equiv_from_equiv nat_list_eq_equiv };

    fn eq(&self, other: &Self) -> bool {
        self.bits == other.bits
    }
}

impl Eq for Loss {
    ghost use Rattle.std.specs.Cmp.Lexicographic.{nat_list_eq_equiv};

    ghost laws = { nat_list_eq_equiv };
}

/// The sites, ascending, separated by commas, or `none`.
impl fmt::Display for Loss {
    fn fmt<W: fmt::Write>(&self, f: &mut fmt::Formatter<W>) -> fmt::Result {
        let mut first = true;
        for site in 1..SITES + 1 {
            if self.has(site) {
                if !first {
                    f.write_str(",")?;
                }
                write!(f, "{site}")?;
                first = false;
            }
        }
        if first {
            f.write_str("none")?;
        }
        Ok(())
    }
}
