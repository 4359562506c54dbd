//! The fatal losses of a catalog.
ghost use Rattle.std.specs.Prelude.{IfOk, IsTrue, ◌↔◌};
ghost use Rattle.cs_design.specs.Fatal.{AreFatalLosses, either};
ghost use Rattle.cs_safety.specs.Safety.{IsSafe};

use crate::order::{all_losses, site_count};
use crate::within::{either, holds_one, shares_site};
use cs_safety::safe;
use cs_schema::{Catalog, Loss};
use std::alloc::{AllocError, Global};

/// Whether what is lost already is still safe with these sites.
pub(crate) fn safe_with(catalog: &Catalog, lost: Loss, loss: Loss) -> bool
    ensures { IsTrue result ↔ IsSafe catalog.now (either lost loss) }
{
    safe(catalog, either(lost, loss))
}

/// The minimal losses of further sites that would be fatal besides what is `lost` already: each is unsafe together with
/// it, none contains another, and every loss that is unsafe together with it contains one of them. Fewer sites come
/// first, then by site numbers. If `lost` itself is unsafe, the empty loss alone.
///
/// Tries each loss of further sites that contains none of those found before, at most 65,536.
pub fn fatal_losses(alloc: Global, catalog: &Catalog, lost: Loss) -> Result<Vec<Loss>, AllocError>
    ensures { IfOk result (λ fatal. AreFatalLosses catalog.now lost fatal.items) }
{
    let losses = all_losses(alloc, catalog, site_count(catalog))?;
    let mut fatal = Vec::new(alloc);
    for loss in &losses {
        if !shares_site(*loss, lost)
            && !holds_one(fatal.as_slice(), *loss)
            && !safe_with(catalog, lost, *loss)
        {
            fatal.push(*loss)?;
        }
    }
    Ok(fatal)
}
