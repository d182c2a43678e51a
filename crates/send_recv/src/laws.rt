//! Laws of messages: how many turns a new one has left, and how calls follow one another.

ghost use Rattle.std.specs.Prelude.{◌≡◌, ℕ, ◌+◌, ◌*◌, ◌≤◌, Bool, true, List, [], None, length};
ghost use base.Stored.{Gv};
ghost use Rattle.scc_base.specs.Heads.{MessageHead, IsHead, IsPostHead};
ghost use Rattle.scc_base.specs.declared.events.Spot.{Spot};
ghost use Rattle.scc_base.specs.declared.events.Turn.{Turn};
ghost use Rattle.scc_base.specs.declared.events.Turn.TheVariants as turn;
ghost use Rattle.scc_base.specs.declared.layouts.Layout.{Layout};
ghost use Rattle.scc_proto.specs.Words.{are_peers};
ghost use Rattle.scc_proto.specs.Ports.{Sight, record_in};
ghost use Rattle.put_get.specs.Cores.{Private};
ghost use Rattle.sync_flags.specs.Tries.{Aim};
ghost use Rattle.sync_flags.specs.Turns.{at_port};
ghost use Rattle.send_recv.specs.declared.answers.RecvTurn.TheVariants as recv_turn;
ghost use Rattle.send_recv.specs.Chunks.{chunk_count, lines_of_bytes};
ghost use Rattle.send_recv.specs.Ops.{SlotAt, RecvAt, SendAt, new_receive, new_send, empty_slot, slot_left};
ghost use Rattle.send_recv.specs.Receiving.{RecvStands, RecvTurned, recv_left};
ghost use Rattle.send_recv.specs.Turns.{HoldsNone};
ghost use Rattle.send_recv.specs.Sending.{SlotStands, SlotTurned, SendStands, SendTurned, send_left};
ghost use Rattle.send_recv.specs.Calling.{IsBetweenMessages, Received, RecvStalled, RecvDiffers, FoundUnset, Sent};
ghost use Rattle.send_recv.specs.Ranks.{receiving, sending, holding_slot, with_bytes};

/// A new receive, a new send and a new post have at most 4 + 5c + l turns left that do not wait, for c chunks
/// and l lines of chunks; a slot has at most two.
pub fn turns_law()
    ensures receive { (size from : ℕ) (head : MessageHead)
        → recv_left size (new_receive from head) ≤ 4 + 5 * chunk_count size head.len + lines_of_bytes head.len }
    ensures send { (layout : Layout) (size to : ℕ) (head : MessageHead) (posted : Bool) (slot : SlotAt)
        → send_left layout size (new_send to head posted) slot ≤ 4 + 5 * chunk_count size head.len + lines_of_bytes head.len }
    ensures slot { (slot : SlotAt) → slot_left slot ≤ 2 }
{}

/// Any message to or from a peer can begin at a rank that is in no call.
pub fn begins_law()
    ensures receive { (s : Sight) (c : Private) (slot : SlotAt) (from : ℕ) (head : MessageHead) (bytes : List ℕ)
        → IsBetweenMessages s c slot
        → are_peers s.seat.setup s.seat.rank from ≡ true → IsHead head → length bytes ≡ head.len
        → RecvStands s c (new_receive from head) bytes }
    ensures send { (s : Sight) (c : Private) (slot : SlotAt) (to : ℕ) (head : MessageHead) (posted : Bool) (bytes : List ℕ)
        → IsBetweenMessages s c slot
        → are_peers s.seat.setup s.seat.rank to ≡ true → IsHead head → (posted ≡ true → IsPostHead head) → length bytes ≡ head.len
        → SendStands s c (new_send to head posted) slot bytes }
{}

/// After a call that answered Ok the rank is in no call again; also after one that met another head, and after a
/// test that found nothing. A receive may have been at its start before, or handed back by a call that gave up.
pub fn ends_law()
    ensures receive { (s t : Sight) (c d : Private) (slot : SlotAt) (op : RecvAt) (polls : ℕ) (old bytes : List ℕ)
        → HoldsNone s.seat.setup.layout (record_in s)
        → SlotStands s.seat (record_in s) slot → Received (receiving s c op old) polls (with_bytes t d bytes) → IsBetweenMessages t d slot }
    ensures other_head { (s t : Sight) (c d : Private) (slot : SlotAt) (op : RecvAt) (polls : ℕ) (old bytes : List ℕ)
        (sent asked : MessageHead) → HoldsNone s.seat.setup.layout (record_in s)
        → SlotStands s.seat (record_in s) slot → RecvDiffers (receiving s c op old) polls (with_bytes t d bytes) sent asked
        → IsBetweenMessages t d slot }
    ensures test { (s t : Sight) (c d : Private) (slot : SlotAt) (aim : Aim) (op : RecvAt) (old bytes : List ℕ) → IsBetweenMessages s c slot
        → FoundUnset aim (receiving s c op old) (with_bytes t d bytes) → IsBetweenMessages t d slot }
    ensures send { (s t : Sight) (c d : Private) (op : SendAt) (slot after : SlotAt) (bytes : List ℕ) → SendStands s c op slot bytes
        → Sent (sending s c op slot bytes) (holding_slot t d after) → IsBetweenMessages t d after }
{}

/// A slot stands after a receive that gave up as it stood before.
pub fn stalls_law()
    ensures slot { (s t : Sight) (c d : Private) (slot : SlotAt) (op now : RecvAt) (polls : ℕ) (old bytes : List ℕ) (spot : Spot)
        → SlotStands s.seat (record_in s) slot
        → RecvStalled (receiving s c op old) polls (receiving t d now bytes) spot → SlotStands t.seat (record_in t) slot }
{}

/// What stands at a port stands at every port of the same rank: the same setup, rank and events.
pub fn other_port_law()
    ensures receive { (s : Sight) (mark rest : Gv) (hold : ℕ) (c : Private) (op : RecvAt) (bytes : List ℕ)
        → RecvStands s c op bytes → RecvStands (at_port s mark rest hold) c op bytes }
    ensures send { (s : Sight) (mark rest : Gv) (hold : ℕ) (c : Private) (op : SendAt) (slot : SlotAt) (bytes : List ℕ)
        → SendStands s c op slot bytes → SendStands (at_port s mark rest hold) c op slot bytes }
    ensures slot { (s : Sight) (mark rest : Gv) (hold : ℕ) (slot : SlotAt) → SlotStands s.seat (record_in s) slot
        → SlotStands (at_port s mark rest hold).seat (record_in (at_port s mark rest hold)) slot }
    ensures no_call { (s : Sight) (mark rest : Gv) (hold : ℕ) (c : Private) (slot : SlotAt) → IsBetweenMessages s c slot
        → IsBetweenMessages (at_port s mark rest hold) c slot }
{}

/// Before its first event a rank is in no call.
pub fn start_law()
    ensures no_call { (s : Sight) (c : Private) → s.events ≡ [] → c.out ≡ None → IsBetweenMessages s c empty_slot }
{}

/// After a turn that ends a message, done or with another head, the rank is in no call; so it is after a turn of the
/// slot if it was before.
pub fn done_law()
    ensures receive { (s t : Sight) (c d : Private) (op now : RecvAt) (slot : SlotAt) (bytes after : List ℕ)
        → SlotStands s.seat (record_in s) slot
        → RecvTurned (receiving s c op bytes) (receiving t d now after) recv_turn.Done → RecvStands t d now after
        → IsBetweenMessages t d slot }
    ensures other_head { (s t : Sight) (c d : Private) (op now : RecvAt) (slot : SlotAt) (bytes after : List ℕ) (sent : MessageHead)
        → SlotStands s.seat (record_in s) slot
        → RecvTurned (receiving s c op bytes) (receiving t d now after) (recv_turn.Mismatch sent) → RecvStands t d now after
        → IsBetweenMessages t d slot }
    ensures send { (s t : Sight) (c d : Private) (op now : SendAt) (slot after : SlotAt) (bytes : List ℕ)
        → SendTurned (sending s c op slot bytes) (sending t d now after bytes) turn.Done
        → SendStands t d now after bytes → IsBetweenMessages t d after }
    ensures slot { (s t : Sight) (c d : Private) (slot now : SlotAt) (answer : Turn) → IsBetweenMessages s c slot
        → SlotTurned (holding_slot s c slot) (holding_slot t d now) answer
        → SlotStands t.seat (record_in t) now → IsBetweenMessages t d now }
{}
