//! Tests of the layers that read and write files: vectors, printed text, hostile bytes; of saves whose files are
//! written in parallel; of the claim board, and of rounds over it.
#![tactic(auto)]

#[cfg(test)]
mod catalogs;
#[cfg(test)]
mod cells;
#[cfg(test)]
mod csv_rows;
#[cfg(test)]
mod csv_streams;
#[cfg(test)]
mod cut_bitmaps;
#[cfg(test)]
mod deltas;
#[cfg(test)]
mod empty_segment;
#[cfg(test)]
mod encodings;
#[cfg(test)]
mod explanations;
#[cfg(test)]
mod full_images;
#[cfg(test)]
mod gates;
#[cfg(test)]
mod join_indexes;
#[cfg(test)]
mod made;
#[cfg(test)]
mod pieces;
#[cfg(test)]
mod saves;
#[cfg(test)]
mod segments;
#[cfg(test)]
mod sinks;
#[cfg(test)]
mod squares;
#[cfg(test)]
mod stores;
