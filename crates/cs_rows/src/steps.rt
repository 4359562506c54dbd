//! The steps of one row's walk.
ghost use Rattle.std.specs.Prelude.{◌≡◌, ◌<◌, length, IfSome};
ghost use Rattle.cs_rows.specs.Walk.{follow};
ghost use Rattle.cs_rows.specs.Survivors.{contents_of};
ghost use Rattle.cs_rows.specs.Steps.{IsAt};

use crate::survivors::Survivors;

/// The row of `q` to which the join index leads from a row of `p`, if it leads to one.
pub(crate) fn follow(
    survivors: &Survivors<'_>,
    p: usize,
    q: usize,
    at: (u16, u32),
) -> Option<(u16, u32)>
    requires p_exists { p < length survivors.now.catalog.projections }
    requires q_exists { q < length survivors.now.catalog.projections }
    requires row { IsAt survivors.now.catalog (contents_of survivors.now) p at }
    ensures leads { result ≡ follow survivors.now.catalog (contents_of survivors.now) p q at }
    ensures there { IfSome result (IsAt survivors.now.catalog (contents_of survivors.now) q) }
{
    let segment = at.0 as usize;
    match survivors.image(p, segment) {
        Some(image) => match survivors.join(p, segment, q) {
            Some(join) => join.follow(image.key_at(at.1), survivors.images(q)),
            None => None,
        },
        None => None,
    }
}
