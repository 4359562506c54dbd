//! The verb `design`.
ghost use Rattle.std.specs.Prelude.{IfOk, is_some};
ghost use Rattle.std.specs.Option.{option_map};
ghost use Rattle.pinepolo_verbs.specs.Promises.{DesignsCatalog, IsDrawn};

use crate::drawing::{Drawn, draw, require_unnamed_picture};
use cs_reports::{Design, design_of, picture};
use cs_schema::Catalog;
use cs_store::Fault;
use pinepolo_answers::Designed;
use pinepolo_args::DesignArgs;
use pinepolo_places::{Places, Tables, VerbError, look_up};
use std::alloc::Global;

/// What a catalog says of losses beside those that came already; its picture is written or handed on, if one is asked for.
pub fn design<P: Places + Tables>(
    alloc: Global,
    places: &mut P,
    request: &DesignArgs<'_>,
) -> Result<Designed, VerbError>
    ensures { IfOk result (λ designed. DesignsCatalog P.reads P.draws
        places.old request.now.catalog.now request.now.lost (option_map (λ path. path.now) request.now.svg) request.now.prints_svg designed places.new) }
{
    let lost = request.lost;
    let catalog = match look_up(alloc, places, request.catalog) {
        Ok(catalog) => catalog,
        Err(error) => return Err(error),
    };
    require_unnamed_picture(alloc, places, request.svg)?;
    if !catalog.has_sites(lost) {
        let fault = &Fault::Site;
        return Err(VerbError::of_store(alloc, &catalog, request.catalog, fault));
    }
    let Ok(design) = design_of(alloc, &catalog, lost) else {
        return Err(VerbError::OutOfMemory);
    };
    let to = Drawn {
        svg: request.svg,
        prints: request.prints_svg,
    };
    match draw_design(alloc, places, &catalog, &design, to) {
        Ok(picture) => Ok(Designed {
            catalog,
            design,
            picture,
        }),
        Err(error) => Err(error),
    }
}

/// Draws a placement, if that is asked for.
fn draw_design<P: Places + Tables>(
    alloc: Global,
    places: &mut P,
    catalog: &Catalog,
    design: &Design,
    to: Drawn<'_>,
) -> Result<Option<String>, VerbError>
    ensures { IfOk result (λ drawn. IsDrawn P.draws places.old (option_map (λ p. p.now) to.entry.svg) to.entry.prints (is_some drawn) places.new) }
{
    if !to.is_asked() {
        return Ok(None);
    }
    draw(alloc, places, to, picture(alloc, catalog, design))
}
