//! Small runs, event by event: each contract says to what the records come.

ghost use Rattle.std.specs.Prelude.{◌≡◌, ℕ, ◌<◌, ◌^◌, [], ◌∷◌, ◌++◌, Some, None, replicate};
ghost use Rattle.scc_base.specs.Events.{load_of, store_of};
ghost use Rattle.scc_base.specs.Heads.{plain_head};
ghost use Rattle.scc_base.specs.Calls.{Send, Recv, Post, Bar};
ghost use Rattle.scc_proto.specs.Stages.{blank};
ghost use Rattle.scc_proto.specs.Words.{IsRun, zeros};
ghost use Rattle.scc_proto.specs.Histories.{IsPermittedRun, records_of};
ghost use Rattle.scc_proto.specs.Passed.{call_in_stage, open_call, passed_calls, slot_of};
ghost use Rattle.scc_proto.specs.Ports.{MayMake, Did, record_in};
ghost use Rattle.scc_proto.specs.Examples.{two_ranks, four_bytes, no_bytes, three_ranks, barrier_of_three, four_bytes_elsewhere, posts_four, takes_four, two_ranks_bits, one_byte_bits, byte_by_bits, two_chunks, two_chunks_bits, bytes_of_words, sends_four, begins_four, nested_ranks, two_meet, stores, after_moves};
ghost use Rattle.scc_proto.specs.Refusals.{drafts_words, sends_first, takes_first};

use crate::ports::Port;
use scc_base::Place;

/// Two events over any port: a store, and then a load.
pub fn store_then_load<P: Port>(port: &mut P, p: Place, v: u64, q: Place) -> u64
    requires { MayMake (P.sight port.old).seat (record_in (P.sight port.old)) (store_of p v) }
    ensures did { Did (P.sight port.old) (store_of p v ∷ load_of q result ∷ []) (P.sight port.new) }
    ensures step { P.stepped (P.sight port.old).seat ((P.sight port.old).events ++ store_of p v ∷ []) (load_of q result) }
{
    port.store(p, v);
    port.load(q)
}

/// Four bytes go from rank 0 to rank 1, up to the receiver's last event.
pub fn four_bytes_arrive()
    ensures is_run { IsRun zeros four_bytes }
    ensures permitted { IsPermittedRun two_ranks (λ r. blank) four_bytes }
    ensures received { (records_of two_ranks four_bytes 1).calls ≡ Recv 0 (plain_head 4) (1 ∷ 2 ∷ 3 ∷ 4 ∷ []) ∷ [] }
    ensures not_finished { (records_of two_ranks four_bytes 0).calls ≡ [] }
    ensures open { open_call two_ranks (records_of two_ranks four_bytes 0) ≡ Some (Send 1 (plain_head 4) (1 ∷ 2 ∷ 3 ∷ 4 ∷ [])) }
    ensures passed { passed_calls two_ranks (records_of two_ranks four_bytes) 0 ≡ Send 1 (plain_head 4) (1 ∷ 2 ∷ 3 ∷ 4 ∷ []) ∷ [] }
{}

/// A message without bytes, up to the sender's last event.
pub fn empty_message_arrives()
    ensures is_run { IsRun zeros no_bytes }
    ensures permitted { IsPermittedRun two_ranks (λ r. blank) no_bytes }
    ensures received { (records_of two_ranks no_bytes 1).calls ≡ Recv 0 (plain_head 0) [] ∷ [] }
    ensures sent { (records_of two_ranks no_bytes 0).calls ≡ Send 1 (plain_head 0) [] ∷ [] }
{}

/// A message of 3,585 bytes, whose first chunk is whole and has any words, up to the sender's last event.
pub fn two_chunks_arrive()
    ensures is_run { (word : ℕ → ℕ) → IsRun zeros (two_chunks word) }
    ensures permitted { (word : ℕ → ℕ) → ((k : ℕ) → word k < 2 ^ 64) → IsPermittedRun two_ranks (λ r. blank) (two_chunks word) }
    ensures received { (word : ℕ → ℕ)
        → (records_of two_ranks (two_chunks word) 1).calls ≡ Recv 0 (plain_head 3585) (bytes_of_words word 3584 ++ 7 ∷ []) ∷ [] }
    ensures sent { (word : ℕ → ℕ)
        → (records_of two_ranks (two_chunks word) 0).calls ≡ Send 1 (plain_head 3585) (bytes_of_words word 3584 ++ 7 ∷ []) ∷ [] }
{}

/// A message of 6,625 bytes by bit flags, each change under its register: a whole chunk has 6,624 bytes there.
pub fn two_chunks_arrive_by_bits()
    ensures is_run { (word : ℕ → ℕ) → IsRun zeros (two_chunks_bits word) }
    ensures permitted { (word : ℕ → ℕ) → ((k : ℕ) → word k < 2 ^ 64) → IsPermittedRun two_ranks_bits (λ r. blank) (two_chunks_bits word) }
    ensures received { (word : ℕ → ℕ)
        → (records_of two_ranks_bits (two_chunks_bits word) 1).calls ≡ Recv 0 (plain_head 6625) (bytes_of_words word 6624 ++ 7 ∷ []) ∷ [] }
    ensures sent { (word : ℕ → ℕ)
        → (records_of two_ranks_bits (two_chunks_bits word) 0).calls ≡ Send 1 (plain_head 6625) (bytes_of_words word 6624 ++ 7 ∷ []) ∷ [] }
{}

/// A barrier of three ranks that are not on the cores of their numbers.
pub fn three_meet()
    ensures is_run { IsRun zeros barrier_of_three }
    ensures permitted { IsPermittedRun three_ranks (λ r. blank) barrier_of_three }
    ensures root { (records_of three_ranks barrier_of_three 0).calls ≡ Bar 0 ∷ [] }
    ensures first { (records_of three_ranks barrier_of_three 1).calls ≡ Bar 0 ∷ [] }
    ensures second { (records_of three_ranks barrier_of_three 2).calls ≡ Bar 0 ∷ [] }
{}

/// Four bytes go between ranks that are not on the cores of their numbers.
pub fn hosts_are_free()
    ensures is_run { IsRun zeros four_bytes_elsewhere }
    ensures permitted { IsPermittedRun three_ranks (λ r. blank) four_bytes_elsewhere }
    ensures received { (records_of three_ranks four_bytes_elsewhere 0).calls ≡ Recv 2 (plain_head 4) (1 ∷ 2 ∷ 3 ∷ 4 ∷ []) ∷ [] }
{}

/// A posted message is on its way, and then received.
pub fn post_arrives()
    ensures is_run { IsRun zeros (posts_four ++ takes_four) }
    ensures permitted { IsPermittedRun two_ranks (λ r. blank) (posts_four ++ takes_four) }
    ensures posted { (records_of two_ranks posts_four 0).calls ≡ Post 1 (plain_head 4) (1 ∷ 2 ∷ 3 ∷ 4 ∷ []) ∷ [] }
    ensures in_flight { slot_of two_ranks (records_of two_ranks posts_four) 0
        ≡ Some (record { to = 1; head = plain_head 4; bytes = 1 ∷ 2 ∷ 3 ∷ 4 ∷ [] }) }
    ensures received { (records_of two_ranks (posts_four ++ takes_four) 1).calls ≡ Recv 0 (plain_head 4) (1 ∷ 2 ∷ 3 ∷ 4 ∷ []) ∷ [] }
    ensures taken { slot_of two_ranks (records_of two_ranks (posts_four ++ takes_four)) 0 ≡ None }
{}

/// One byte goes between ranks with bit flags, each change under its register.
pub fn bits_change()
    ensures is_run { IsRun zeros one_byte_bits }
    ensures permitted { IsPermittedRun two_ranks_bits (λ r. blank) one_byte_bits }
    ensures received { (records_of two_ranks_bits one_byte_bits 0).calls ≡ Recv 1 (plain_head 1) (9 ∷ []) ∷ [] }
    ensures sent { (records_of two_ranks_bits one_byte_bits 1).calls ≡ Send 0 (plain_head 1) (9 ∷ []) ∷ [] }
{}

/// A posted byte goes between ranks with bit flags, up to the last event of the rank that posted it.
pub fn post_arrives_by_bits()
    ensures is_run { IsRun zeros (byte_by_bits 1) }
    ensures permitted { IsPermittedRun two_ranks_bits (λ r. blank) (byte_by_bits 1) }
    ensures received { (records_of two_ranks_bits (byte_by_bits 1) 0).calls ≡ Recv 1 (plain_head 1) (9 ∷ []) ∷ [] }
    ensures posted { (records_of two_ranks_bits (byte_by_bits 1) 1).calls ≡ Post 0 (plain_head 1) (9 ∷ []) ∷ [] }
    ensures taken { slot_of two_ranks_bits (records_of two_ranks_bits (byte_by_bits 1)) 1 ≡ None }
{}

/// Two ranks meet twice in a communicator that was split from another one.
pub fn two_meet_twice()
    ensures is_run { IsRun zeros (two_meet 1 ++ two_meet 0) }
    ensures permitted { IsPermittedRun nested_ranks (λ r. blank) (two_meet 1 ++ two_meet 0) }
    ensures root { (records_of nested_ranks (two_meet 1 ++ two_meet 0) 0).calls ≡ Bar 9 ∷ Bar 9 ∷ [] }
    ensures member { (records_of nested_ranks (two_meet 1 ++ two_meet 0) 2).calls ≡ Bar 9 ∷ Bar 9 ∷ [] }
{}

/// A receive whose chunk is being taken is open, and so is one between two chunks, a send between two, and a barrier that was
/// entered; none of them is passed. What is only drafted is no open call.
pub fn calls_are_open()
    ensures receive { open_call two_ranks (records_of two_ranks (sends_four ++ begins_four) 1) ≡ Some (Recv 0 (plain_head 4) []) }
    ensures not_received { passed_calls two_ranks (records_of two_ranks (sends_four ++ begins_four)) 1 ≡ [] }
    ensures not_sent { passed_calls two_ranks (records_of two_ranks (sends_four ++ begins_four)) 0 ≡ [] }
    ensures barrier { open_call nested_ranks (records_of nested_ranks (stores 2 2 98 1 1 ∷ []) 2) ≡ Some (Bar 9) }
    ensures between { call_in_stage 32 (after_moves 32 blank takes_first).stage ≡ Some (Recv 0 (plain_head 33) (7 ∷ replicate 31 0)) }
    ensures sent_on { call_in_stage 32 (after_moves 32 blank sends_first).stage ≡ Some (Send 1 (plain_head 33) (7 ∷ replicate 31 0)) }
    ensures drafted { call_in_stage 32 (after_moves 32 blank (drafts_words 7)).stage ≡ None }
    ensures not_met { passed_calls nested_ranks (records_of nested_ranks (stores 2 2 98 1 1 ∷ [])) 2 ≡ [] }
{}
