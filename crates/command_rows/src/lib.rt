//! Tests of programs and of the script language: what no row of a run shows. There is no other code.
#![tactic(auto)]

#[cfg(test)]
mod bounds;
#[cfg(test)]
mod cases;
#[cfg(test)]
mod ends;
#[cfg(test)]
mod fault_rows;
#[cfg(test)]
mod faults;
#[cfg(test)]
mod gathered;
#[cfg(test)]
mod generated;
#[cfg(test)]
mod labs;
#[cfg(test)]
mod limits;
#[cfg(test)]
mod line_count;
#[cfg(test)]
mod lines;
#[cfg(test)]
mod machines;
#[cfg(test)]
mod outside;
#[cfg(test)]
mod plain_runs;
#[cfg(test)]
mod programs;
#[cfg(test)]
mod setups;
#[cfg(test)]
mod taps;
#[cfg(test)]
mod together;
#[cfg(test)]
mod waits;
#[cfg(test)]
mod words;
