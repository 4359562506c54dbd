//! Encoding a segment of a store into its file. While a column is appended to the file and hashed, the next one is
//! encoded; the last one is appended and hashed by `finish`.
ghost use Rattle.std.specs.Prelude.{◌≡◌, ◌≤◌, ◌*◌, length};
ghost use Rattle.cs_schema.specs.CatalogData.{HasSegment};
ghost use Rattle.cs_schema.specs.CatalogRules.{IsCatalog};
ghost use Rattle.cs_order.specs.Orders.{numbers_in};
ghost use Rattle.cs_recovery.proofs.CatalogFacts.{IsCatalog-prop};
ghost use Rattle.cs_rebuild.specs.Encoding.{pieces_of};

use crate::columns::table_column;
use crate::cutting::pieces_in;
use crate::ordered_store::OrderedStore;
use crate::run::Run;
use cs_board::{Gate, Round};
use cs_schema::limits::TEXT_BYTES;
use cs_schema::{Cells, Code};
use cs_segment::SegmentWriter;
use std::alloc::{AllocError, Global};
use std::marker::Sync;
use std::mem::replace;
use std::thread::{Threads, join_mut};

/// The maximum number of bytes that a row takes in an encoded column: the longest text, one byte for its length, one
/// for rounding, and eight for the position and the length of a run.
const ROW_BYTES: usize = TEXT_BYTES + 10;

/// Encodes a segment of a store.
#[derive(Drop)]
pub struct SegmentEncoder<'a> {
    pub alloc: Global,
    pub store: &'a OrderedStore<'a>,
    pub p: u16,
    pub s: u16,
    /// The numbers of the segment's rows, in its order.
    pub numbers: &'a [u32],
    /// The number of rows of a chunk. The last chunk of a column may have fewer.
    pub cut: u32,
    /// The number of chunks of a column.
    pub chunks: u32,
    pub ghost rules: { IsCatalog store.now.catalog.now } by { IsCatalog-prop store.now.catalog.now },
    pub ghost segment: { HasSegment store.now.catalog.now p s },
    pub ghost numbers_are: { numbers.now ≡ numbers_in store.now.orders p s },
    pub ghost cut_range: { (1 ≤ cut) × (cut ≤ 1048576) },
    pub ghost chunks_are: { chunks ≡ pieces_of (length numbers.now) cut },
}

/// Whether a column is slow to encode, since each of its cells is looked at.
fn is_slow(code: Code) -> bool {
    code == Code::Runs || code == Code::Bitmaps
}

/// An estimate, on the high side, of the length in bytes of an encoded column of `rows` rows.
fn column_size(column: &Cells, code: Code, rows: usize) -> usize
    ensures { result ≤ 265 * rows }
{
    let cell = match column {
        Cells::Ints(_) => 8,
        // a byte for the length, and the mean of the lengths, rounded up
        Cells::Texts(texts) => (texts.size() / texts.len().max(1)).saturating_add(2),
    };
    // each cell may be a run
    let run = if code == Code::Runs { 8 } else { 0 };
    let row = cell.saturating_add(run).min(ROW_BYTES);
    rows.saturating_mul(row)
}

impl<'a> SegmentEncoder<'a> {
    ghost use Rattle.std.specs.Prelude.{◌≡◌, ◌≤◌, ◌-◌, ◌*◌, length, IfOk, OnOk};
    ghost use Rattle.cs_schema.specs.CatalogData.{HasSegment};
    ghost use Rattle.cs_rebuild.specs.OnStore.{segment_file_on};
    ghost use Rattle.cs_rebuild.specs.SegmentEncoder.{HasColumn, IsBody, HoldsFirst, Appends, column_count};

    /// An encoder of segment `s` of projection `p`, in chunks of `cut` rows.
    pub fn new(alloc: Global, store: &'a OrderedStore<'a>, p: u16, s: u16, cut: u32) -> Self
        requires segment { HasSegment store.now.catalog.now p s }
        requires cut { (1 ≤ cut) × (cut ≤ 1048576) }
        ensures store { result.store.now ≡ store.now }
        ensures projection { result.p ≡ p }
        ensures segment { result.s ≡ s }
    {
        let _rules = store.catalog.projection_count();
        let numbers = store.orders.segment(p, s);
        SegmentEncoder {
            alloc,
            store,
            p,
            s,
            numbers,
            cut,
            chunks: pieces_in(numbers.len(), cut),
        }
    }

    /// An estimate, on the high side, of the length in bytes of all encoded columns. Room that stays unused takes no
    /// physical memory.
    fn size(&self) -> usize
        ensures { result ≤ 265 * length self.now.numbers.now * column_count self.now }
    {
        let catalog = self.store.catalog;
        let mut size: usize = 0;
        for j in 0..catalog.width(self.p) {
            let column = self.store.walked.column(table_column(catalog, self.p, j));
            let more = column_size(column, catalog.code(self.p, j), self.numbers.len());
            size = size.saturating_add(more);
        }
        size
    }

    /// Appends the encoded column `j` to the file, hashes it meanwhile, and frees it.
    fn append<R: Threads + Sync, G: Gate + Sync>(
        &self,
        run: &Run<'_, R, G>,
        file: &mut SegmentWriter,
        j: usize,
        body: Vec<Vec<u8>>,
    ) -> Result<(), AllocError>
        requires column { HasColumn self.now j }
        requires body { IsBody self.now j body }
        ensures { OnOk result (Appends self.now j file.old file.new) }
    {
        let code = self.store.catalog.code(self.p, j);
        let kind = self.store.catalog.column_kind(self.p, j);
        file.push_pieces(run.rt, code, kind, body)
    }

    /// Appends the encoded column `j` to those that wait for `finish`, without reading it.
    fn queue(
        &self,
        file: &mut SegmentWriter,
        j: usize,
        body: Vec<Vec<u8>>,
    ) -> Result<(), AllocError>
        requires column { HasColumn self.now j }
        requires body { IsBody self.now j body }
        ensures { OnOk result (Appends self.now j file.old file.new) }
    {
        let code = self.store.catalog.code(self.p, j);
        let kind = self.store.catalog.column_kind(self.p, j);
        file.put_pieces(code, kind, body)
    }

    /// Appends the column before `next` to the file and, in parallel, encodes `next`.
    fn append_beside<R: Threads + Sync, G: Gate + Sync>(
        &self,
        run: &Run<'_, R, G>,
        file: &mut SegmentWriter,
        next: usize,
        body: Vec<Vec<u8>>,
    ) -> (Result<(), AllocError>, Result<Vec<Vec<u8>>, AllocError>)
        requires column { (1 ≤ next) × HasColumn self.now next }
        requires body { IsBody self.now (next - 1) body }
        ensures file { OnOk result.0 (Appends self.now (next - 1) file.old file.new) }
        ensures body { IfOk result.1 (IsBody self.now next) }
    {
        let last = next - 1;
        let mut body = body;
        // `join` guarantees nothing for a closure over a struct of references
        join_mut(
            run.rt,
            &mut || -> Result<(), AllocError>
                requires { HasColumn self.now last × IsBody self.now last body }
                ensures { OnOk result (Appends self.entry.now last file.entry.now file.exit.now) }
            { self.append(run, file, last, replace(&mut body, Vec::new(self.alloc))) },
            &mut || -> Result<Vec<Vec<u8>>, AllocError>
                requires { HasColumn self.now next }
                ensures { IfOk result (IsBody self.entry.now next) }
            { self.encode_column(run, next) },
        )
    }

    /// Appends the first `count` columns to a file that has none. Each is appended while the next one is encoded. The
    /// last of them waits for `finish`.
    fn append_first<R: Threads + Sync, G: Gate + Sync>(
        &self,
        run: &Run<'_, R, G>,
        file: &mut SegmentWriter,
        count: usize,
    ) -> Result<(), AllocError>
        requires count { count ≤ column_count self.now }
        requires file { HoldsFirst self.now 0 file.old }
        ensures { OnOk result (HoldsFirst self.now count file.new) }
    {
        if count == 0 {
            return Ok(());
        }
        // for its clause on the number of columns
        let _width = self.store.catalog.width(self.p);
        let mut body = self.encode_column(run, 0)?;
        for next in 1..count {
            let (appended, encoded) = self.append_beside(run, file, next, body);
            appended?;
            body = encoded?;
        }
        self.queue(file, count - 1, body)
    }

    /// Appends all columns to a file that has none. If the last one is slow to encode, that begins at once, in parallel
    /// with the others. The last two columns at most wait for `finish`.
    fn append_columns<R: Threads + Sync, G: Gate + Sync>(
        &self,
        run: &Run<'_, R, G>,
        file: &mut SegmentWriter,
    ) -> Result<(), AllocError>
        requires { HoldsFirst self.now 0 file.old }
        ensures { OnOk result (HoldsFirst self.now (column_count self.now) file.new) }
    {
        let width = self.store.catalog.width(self.p);
        let last = width - 1;
        if !is_slow(self.store.catalog.code(self.p, last)) {
            return self.append_first(run, file, width);
        }
        // `join` guarantees nothing for a closure over a struct of references
        let (appended, encoded) = join_mut(
            run.rt,
            &mut || -> Result<(), AllocError>
                requires { HasColumn self.now last × HoldsFirst self.now 0 file.now }
                ensures { OnOk result (HoldsFirst self.entry.now last file.exit.now) }
            { self.append_first(run, file, last) },
            &mut || -> Result<Vec<Vec<u8>>, AllocError>
                requires { HasColumn self.now last }
                ensures { IfOk result (IsBody self.entry.now last) }
            { self.encode_column(run, last) },
        );
        appended?;
        self.queue(file, last, encoded?)
    }

    /// The file of the segment. Its columns are encoded in one round.
    pub fn encode<R: Threads + Sync, G: Gate + Sync>(
        &self,
        run: &Run<'_, R, G>,
    ) -> Result<Vec<u8>, AllocError>
        ensures { IfOk result (λ file. file.items ≡ segment_file_on self.now.store.now self.now.p self.now.s) }
    {
        let catalog = self.store.catalog;
        let tasks = (catalog.width(self.p) as u32).wrapping_mul(self.chunks);
        run.gate.opened(Round::Columns, tasks);
        let rows = self.numbers.len() as u32;
        let mut file = SegmentWriter::begin(self.alloc, catalog, self.p, self.s, rows)?;
        // otherwise the content is copied each time the file grows
        file.reserve(self.size())?;
        self.append_columns(run, &mut file)?;
        file.finish()
    }
}
