//! Writing a segment's file column by column. A column can be queued, to be copied and hashed later.
ghost use Rattle.std.specs.Prelude.{◌≡◌, ◌++◌, ◌<◌, ◌^◌, ℕ, List, length, min, IfOk, OnOk};
ghost use Rattle.cs_schema.specs.CatalogData.{projection};
ghost use Rattle.cs_segment.specs.SegmentFile.{sealed};
ghost use Rattle.cs_segment.specs.Parts.{head_text};
ghost use Rattle.cs_segment.specs.Bodies.{body_part, part_front};
ghost use Rattle.cs_segment.specs.SegmentWriter.{joined};

use crate::format::{code_number, kind_number};
use crate::hashing_buffer::HashingBuffer;
use cs_schema::{Catalog, Code, Kind};
use std::alloc::{AllocError, Global};
use std::marker::Model;
use std::mem::replace;
use std::thread::Threads;

/// A segment's file while it is written, without its digest. Contracts see its bytes so far, those of queued columns
/// included.
#[derive(Drop)]
pub struct SegmentWriter {
    alloc: Global,
    /// The first bytes of the file, in one buffer.
    front: HashingBuffer,
    /// The bytes after `front`: the headers and bodies of queued columns.
    queued: Vec<Vec<u8>>,
}

impl Model for SegmentWriter {
    ghost use Rattle.std.specs.Prelude.{List, ℕ};

    ghost Value = { List ℕ };

    ghost use Rattle.cs_segment.specs.SegmentWriter.{writer_bytes};

    ghost view = { writer_bytes };
}

/// The header of a segment's file.
fn file_header(
    alloc: Global,
    catalog: &Catalog,
    p: u16,
    s: u16,
    rows: u32,
) -> Result<Vec<u8>, AllocError>
    requires { p < length catalog.now.projections }
    ensures { IfOk result (λ out. out.items ≡ head_text p s rows (length (projection catalog.now p).columns)) }
{
    let width = catalog.width(p);
    let mut out = Vec::new(alloc);
    out.extend_from_slice(b"CSSEG001")?;
    out.extend_from_slice(&p.to_be_bytes())?;
    out.extend_from_slice(&s.to_be_bytes())?;
    out.extend_from_slice(&rows.to_be_bytes())?;
    out.extend_from_slice(&(width as u16).to_be_bytes())?;
    Ok(out)
}

/// The header of a column: its encoding, its kind, and the number of bytes of its body.
fn column_header(
    alloc: Global,
    code: Code,
    kind: Kind,
    length: usize,
) -> Result<Vec<u8>, AllocError>
    requires { length < 2 ^ 32 }
    ensures { IfOk result (λ out. out.items ≡ part_front code kind length) }
{
    let mut out = Vec::new(alloc);
    out.push(code_number(code))?;
    out.push(kind_number(kind))?;
    out.extend_from_slice(&(length as u32).to_be_bytes())?;
    Ok(out)
}

/// The total number of bytes of the pieces, or `usize::MAX` if there are more.
fn total_length(pieces: &[Vec<u8>]) -> usize
    ensures { result ≡ min (length (joined pieces.now)) usize.MAX }
{
    let mut length: usize = 0;
    for piece in pieces {
        length = length.saturating_add(piece.len());
    }
    length
}

/// Appends the pieces in order and hashes them. Each is freed as soon as it is copied.
fn append_pieces(buffer: &mut HashingBuffer, pieces: Vec<Vec<u8>>) -> Result<(), AllocError>
    ensures { OnOk result (buffer.new ≡ buffer.old ++ joined pieces.items) }
{
    buffer.reserve(total_length(pieces.as_slice()))?;
    for piece in pieces {
        buffer.extend(&piece)?;
    }
    Ok(())
}

/// Appends the pieces in order and hashes them, a long one while it is copied. Each is freed as soon as it is copied.
fn append_pieces_beside<R: Threads>(
    rt: &R,
    buffer: &mut HashingBuffer,
    pieces: Vec<Vec<u8>>,
) -> Result<(), AllocError>
    ensures { OnOk result (buffer.new ≡ buffer.old ++ joined pieces.items) }
{
    buffer.reserve(total_length(pieces.as_slice()))?;
    for piece in pieces {
        buffer.extend_beside(rt, &piece)?;
    }
    Ok(())
}

impl SegmentWriter {
    /// Starts the file of segment `s` of projection `p`, which has `rows` rows. It has the header and no column yet.
    pub fn begin(
        alloc: Global,
        catalog: &Catalog,
        p: u16,
        s: u16,
        rows: u32,
    ) -> Result<SegmentWriter, AllocError>
        requires { p < length catalog.now.projections }
        ensures { IfOk result (λ file. file ≡ head_text p s rows (length (projection catalog.now p).columns)) }
    {
        Ok(SegmentWriter {
            alloc,
            front: HashingBuffer::new(file_header(alloc, catalog, p, s, rows)?),
            queued: Vec::new(alloc),
        })
    }

    /// Reserves room for `bytes` more bytes, so that appending them does not move the file.
    pub fn reserve(&mut self, bytes: usize) -> Result<(), AllocError>
        ensures { self.new ≡ self.old }
    {
        self.front.reserve(bytes)
    }

    /// Appends a column whose body is these pieces in order. A piece of 64 KiB or more is hashed while it is copied,
    /// and each is freed as soon as it is copied. If memory is refused, the file is incomplete.
    pub fn push_pieces<R: Threads>(
        &mut self,
        rt: &R,
        code: Code,
        kind: Kind,
        body: Vec<Vec<u8>>,
    ) -> Result<(), AllocError>
        requires { length (joined body.items) < 2 ^ 32 }
        ensures { OnOk result (self.new ≡ self.old ++ body_part code kind (joined body.items)) }
    {
        let header = column_header(self.alloc, code, kind, total_length(body.as_slice()))?;
        let queued = replace(&mut self.queued, Vec::new(self.alloc));
        append_pieces(&mut self.front, queued)?;
        self.front.extend(&header)?;
        append_pieces_beside(rt, &mut self.front, body)
    }

    /// Queues a column whose body is these pieces in order. The next push, or `finish`, copies and hashes them. If
    /// memory is refused, the file is incomplete.
    pub fn put_pieces(
        &mut self,
        code: Code,
        kind: Kind,
        body: Vec<Vec<u8>>,
    ) -> Result<(), AllocError>
        requires { length (joined body.items) < 2 ^ 32 }
        ensures { OnOk result (self.new ≡ self.old ++ body_part code kind (joined body.items)) }
    {
        let header = column_header(self.alloc, code, kind, total_length(body.as_slice()))?;
        let mut body = body;
        self.queued.push(header)?;
        self.queued.append(&mut body)
    }

    /// The whole file: the header and all columns, followed by the digest.
    pub fn finish(self) -> Result<Vec<u8>, AllocError>
        ensures { IfOk result (λ out. out.items ≡ sealed self) }
    {
        let SegmentWriter { front, queued, .. } = self;
        let mut front = front;
        append_pieces(&mut front, queued)?;
        front.sealed()
    }
}
