//! Tests of a station's broadcasts and reductions, and of what its stops print. There is no other code.
#![tactic(auto)]

#[cfg(test)]
mod groups_of_three;
#[cfg(test)]
mod stop_texts;
