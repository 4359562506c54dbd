//! The entries of join indexes after a recovery: for each key of a segment, the place of its row in another projection.
ghost use Rattle.std.specs.Prelude.{◌≡◌, ◌<◌, ℕ, false, true, IsTrue, length, Some, MatchOption};
ghost use Rattle.std.specs.List.{slice_get};
ghost use Rattle.std.proofs.Props.{props};
ghost use Rattle.cs_schema.specs.CatalogData.{HasSegment, segments};
ghost use Rattle.cs_schema.specs.Losses.{lost};
ghost use Rattle.cs_schema.specs.Order.{rows_of};
ghost use Rattle.cs_safety.specs.Safety.{IsAlive};
ghost use Rattle.cs_delta.specs.Image.{position_of_key};
ghost use Rattle.cs_rows.specs.Survivors.{images_of, image_at};
ghost use Rattle.cs_order.specs.Orders.{numbers_in, row_at};
ghost use Rattle.cs_recovery.specs.Places.{place_of, entry_for};
ghost use Rattle.cs_rebuild.specs.OnStore.{held_on, table_on, image_on};

use crate::ordered_store::OrderedStore;
use cs_delta::Image;
use cs_safety::alive;

/// The entries of a join index after a recovery, computed on demand. What does not depend on the key is looked up once,
/// since there may be a million keys.
#[derive(Drop)]
pub struct ExpectedJoinIndex<'a> {
    pub store: &'a OrderedStore<'a>,
    pub p: u16,
    pub s: u16,
    pub q: u16,
    /// The rows of the segment's range, in order.
    pub numbers: &'a [u32],
    /// The image of the segment, if it is not lost.
    kept: Option<&'a Image>,
    targets: &'a [Option<Image>],
    /// Whether no segment of the target is lost.
    whole: bool,
    ghost segment: { HasSegment store.now.catalog.now p s },
    ghost target: { q < length store.now.catalog.now.projections },
    ghost numbers_are: { numbers.now ≡ numbers_in store.now.orders p s },
    ghost kept_is: { MatchOption kept (lost store.now.catalog.now store.now.loss p s ≡ true)
        (λ m. (lost store.now.catalog.now store.now.loss p s ≡ false)
        × (image_at store.now.survivors.now p s ≡ Some m.now)) } by { Prim.hlevel props },
    ghost targets_are: { targets.now ≡ images_of store.now.survivors.now q },
    ghost whole_is: { IsTrue whole → IsAlive store.now.catalog.now store.now.loss q },
    ghost targets_count: { length (images_of store.now.survivors.now q) ≡ segments store.now.survivors.now.catalog q },
}

/// The image of a segment, if it is not lost.
fn kept_image<'a>(store: &OrderedStore<'a>, p: u16, s: u16) -> Option<&'a Image>
    requires { HasSegment store.now.catalog.now p s }
    ensures { MatchOption result (lost store.now.catalog.now store.now.loss p s ≡ true)
        (λ m. (lost store.now.catalog.now store.now.loss p s ≡ false)
        × (image_at store.now.survivors.now p s ≡ Some m.now)) }
{
    if store.catalog.lost(p, s, store.loss) {
        return None;
    }
    match store.survivors.image(p as usize, s as usize) {
        Some(image) => Some(image),
        None => unreachable!(),
    }
}

impl<'a> ExpectedJoinIndex<'a> {
    /// The entries of the join index from a segment to a projection.
    pub fn new(store: &'a OrderedStore<'a>, p: u16, s: u16, q: u16) -> Self
        requires segment { HasSegment store.now.catalog.now p s }
        requires target { q < length store.now.catalog.now.projections }
        ensures store { result.store.now ≡ store.now }
        ensures segment { (result.p ≡ p) × (result.s ≡ s) }
        ensures target { result.q ≡ q }
    {
        ExpectedJoinIndex {
            store,
            p,
            s,
            q,
            numbers: store.orders.segment(p, s),
            kept: kept_image(store, p, s),
            targets: store.survivors.images(q as usize),
            whole: alive(store.catalog, store.loss, q),
        }
    }

    /// The highest key ever given in the segment.
    pub fn top(&self) -> u32
        ensures { result ≡ (image_on self.now.store.now self.now.p self.now.s).top }
    {
        match self.kept {
            Some(image) => image.top(),
            None => self.numbers.len() as u32,
        }
    }

    /// The position of a key in the segment's image, or `None` if the key is dead.
    #[inline(always)]
    pub fn position(&self, key: u32) -> Option<u32>
        ensures { result ≡ position_of_key (image_on self.now.store.now self.now.p self.now.s) key }
    {
        match self.kept {
            Some(image) => image.position_of(key),
            None => {
                if key == 0 {
                    return None;
                }
                if key as usize > self.numbers.len() {
                    return None;
                }
                Some(key - 1)
            }
        }
    }

    /// Whether a segment of the target is lost. The catalog is not looked up if none is.
    #[inline(always)]
    fn is_lost(&self, t: u16) -> bool
        requires { t < segments self.now.store.now.catalog.now self.now.q }
        ensures { result ≡ lost self.now.store.now.catalog.now self.now.store.now.loss self.now.q t }
    {
        if self.whole {
            return false;
        }
        self.store.catalog.lost(self.q, t, self.store.loss)
    }

    /// The place of a walked row in the target projection: its segment, and the key that it has there.
    #[inline(always)]
    pub fn place(&self, row: u32) -> (u16, u32)
        requires { row < length self.now.store.now.walked.rows }
        ensures place { result ≡ place_of self.now.store.now.catalog.now self.now.store.now.loss
            (held_on self.now.store.now) (table_on self.now.store.now) self.now.q
            (row_at self.now.store.now.walked.rows row) }
        ensures exists { result.0 < segments self.now.store.now.catalog.now self.now.q }
        ensures there { (i : ℕ) × (slice_get (rows_of self.now.store.now.catalog.now
            (table_on self.now.store.now) self.now.q result.0) i
            ≡ Some (row_at self.now.store.now.walked.rows row)) }
    {
        let (t, index) = self.store.orders.place(self.q, row);
        if self.is_lost(t) {
            return (t, index + 1);
        }
        match &self.targets[t as usize] {
            Some(image) => {
                if index < image.rows() {
                    (t, image.key_at(index))
                } else {
                    (t, 0)
                }
            }
            None => unreachable!(),
        }
    }

    /// The entry for a key: the place of its row, or `(0, 0)` if the key is dead.
    #[inline(always)]
    pub fn at(&self, key: u32) -> (u16, u32)
        ensures entry { result ≡ entry_for self.now.store.now.catalog.now self.now.store.now.loss
            (held_on self.now.store.now) (table_on self.now.store.now) self.now.p self.now.s self.now.q key }
        ensures exists { result.0 < segments self.now.store.now.catalog.now self.now.q }
    {
        match self.position(key) {
            Some(position) => {
                let position = position as usize;
                if position < self.numbers.len() {
                    self.place(self.numbers[position])
                } else {
                    (0, 0)
                }
            }
            None => (0, 0),
        }
    }
}
