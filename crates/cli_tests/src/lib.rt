//! Tests of the commands, over places in memory and over folders.
#![tactic(auto)]

#[cfg(test)]
mod commands;
#[cfg(test)]
mod devices;
#[cfg(test)]
mod expecting;
#[cfg(test)]
mod folder_limits;
#[cfg(test)]
mod folder_reads;
#[cfg(test)]
mod folder_writes;
#[cfg(test)]
mod folders;
#[cfg(test)]
mod made_folders;
#[cfg(test)]
mod places;
#[cfg(test)]
mod store;
#[cfg(test)]
mod stores;
#[cfg(test)]
mod streams;
#[cfg(test)]
mod watch;
