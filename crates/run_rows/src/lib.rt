//! Tests over a chip: of UEs and of collective calls on a chip with one seat, and of whole runs, in threads and on one. The only other code
//! is the types of a worker that a user writes (`rings`), which the specs use: its ranks pass a number round a ring.
#![tactic(auto)]

#[cfg(test)]
mod coll_alone;
#[cfg(test)]
mod coll_members;
#[cfg(test)]
mod coll_pieces;
#[cfg(test)]
mod coll_runs;
#[cfg(test)]
mod coll_teams;
#[cfg(test)]
mod evictors;
#[cfg(test)]
mod logs;
#[cfg(test)]
mod meetings;
#[cfg(test)]
mod open_sends;
#[cfg(test)]
mod ring_runs;
#[cfg(test)]
mod ring_turns;
mod rings;
#[cfg(test)]
mod runs;
#[cfg(test)]
mod scripts;
#[cfg(test)]
mod second_meetings;
#[cfg(test)]
mod ue_apart;
#[cfg(test)]
mod ue_ends;
#[cfg(test)]
mod ues;
