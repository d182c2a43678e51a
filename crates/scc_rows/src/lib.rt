//! Tests of the chip and of the crates around it, in one crate, since a crate with tests is proved twice. There is no
//! other code.
#![tactic(auto)]

#[cfg(test)]
mod away_ranks;
#[cfg(test)]
mod barriers;
#[cfg(test)]
mod callers;
#[cfg(test)]
mod chip;
#[cfg(test)]
mod collectives;
#[cfg(test)]
mod combiners;
#[cfg(test)]
mod evictors;
#[cfg(test)]
mod fixtures;
#[cfg(test)]
mod flags;
#[cfg(test)]
mod heaps;
#[cfg(test)]
mod line_caches;
#[cfg(test)]
mod listed_ports;
#[cfg(test)]
mod locks;
#[cfg(test)]
mod messages;
#[cfg(test)]
mod names;
#[cfg(test)]
mod own_flags;
#[cfg(test)]
mod private_lines;
#[cfg(test)]
mod stalled_calls;
#[cfg(test)]
mod steps;
#[cfg(test)]
mod turn_chips;
#[cfg(test)]
mod waiting_messages;
#[cfg(test)]
mod whole_barriers;
#[cfg(test)]
mod whole_messages;
