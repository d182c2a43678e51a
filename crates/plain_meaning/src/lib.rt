//! The plain meaning of scripts: the step of a run in which sends meet receives, the configuration that these steps come to,
//! and their laws.
#![tactic(auto)]

mod call_laws;
mod collective_laws;
mod held_laws;
mod laws;

pub use call_laws::{calls_are_known_before, calls_can_be_made, primitives_are_operations};
pub use collective_laws::{
    broadcasts_arrive, calls_are_counted_alike, messages_arrive_as_sent, ranks_go_their_own_ways,
    reductions_fold, used_up_statements_are_done,
};
pub use held_laws::ends_are_explained;
pub use laws::{
    barriers_meet, every_order_has_one_end, every_order_is_finite, lowest_owner_steps,
    steps_commute, ways_tell_calls,
};
