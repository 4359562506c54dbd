//! Losses of single sites.
ghost use Rattle.std.specs.Prelude.{◌≡◌, ◌≤◌, ◌==◌, ℕ};
ghost use Rattle.cs_schema.specs.Lists.{member};

use cs_schema::Loss;

/// The loss of one site.
pub fn site_alone(site: u8) -> Loss
    requires { (1 ≤ site) × (site ≤ 16) }
    ensures { (s : ℕ) → member result s ≡ (s == site) }
{
    Loss::none().with(site)
}
