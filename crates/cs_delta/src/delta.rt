//! Deltas, as they are read from their files.
use crate::layer::Layer;
use std::marker::Model;

/// The changes to the base of segment `s` of projection `p`: one to three layers, the lowest first.
#[derive(Drop)]
pub struct Delta {
    pub p: u16,
    pub s: u16,
    /// The version of the file: 1 or 2.
    pub version: u8,
    /// The number of rows of the base.
    pub rows: u32,
    /// The highest storage key ever given in the segment.
    pub top: u32,
    pub layers: Vec<Layer>,
}

impl Model for Delta {
    ghost use Rattle.cs_delta.specs.DeltaFile.{DeltaData};

    ghost Value = { DeltaData };

    ghost use Rattle.cs_delta.specs.DeltaView.{delta_data};

    ghost view = { delta_data };
}
