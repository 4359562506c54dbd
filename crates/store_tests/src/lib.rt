//! Tests of whole stores, whose files are made from plain rows, rebuilt and checked; of walks of what survives; of the
//! orders of rows; of safe losses and plans.
#![tactic(auto)]

#[cfg(test)]
mod answers;
#[cfg(test)]
mod build;
#[cfg(test)]
mod cities;
#[cfg(test)]
mod crowds;
#[cfg(test)]
mod damaged_pairs;
#[cfg(test)]
mod file_sweeps;
#[cfg(test)]
mod full_range;
#[cfg(test)]
mod joined;
#[cfg(test)]
mod last_key;
#[cfg(test)]
mod laws;
#[cfg(test)]
mod one_segment;
#[cfg(test)]
mod orders_by_ties;
#[cfg(test)]
mod plays;
#[cfg(test)]
mod rounds;
#[cfg(test)]
mod safety;
#[cfg(test)]
mod sort_orders;
#[cfg(test)]
mod stores;
#[cfg(test)]
mod surviving;
#[cfg(test)]
mod three_orders;
#[cfg(test)]
mod told_first;
#[cfg(test)]
mod two_marked;
#[cfg(test)]
mod walks;
