//! Complete scripts with their results, computed by the definitions.
#![tactic(auto)]

mod collectives;
mod messages;
mod posts;
mod refusals;
mod values;

pub use collectives::{
    a_member_leaves_early, a_sum_wraps, barriers_meet, groups_meet, groups_reduce, kinds_differ,
    splits_nest,
};
pub use messages::{
    a_message_arrives, a_message_goes_on, a_ring_goes_round, all_send_first, lengths_differ,
    two_messages_arrive,
};
pub use posts::{a_post_has_a_length, a_post_is_taken, all_post_first};
pub use refusals::{lines_are_refused, repeats_are_refused, statements_are_refused};
pub use values::{a_number_is_printed, a_repeat_is_done_twice, nothing_is_done};
