//! Laws of collective calls, each a function that does nothing and ensures it.

ghost use Rattle.std.specs.Prelude.{◌≡◌, ℕ, ◌+◌, ◌*◌, ◌<◌, ◌≤◌, List, Option, length, sum_by};
ghost use base.Stored.{Gv};
ghost use Rattle.scc_base.specs.Calls.{DataCall};
ghost use Rattle.scc_proto.specs.Legality.{IsLegal, Outgoing};
ghost use Rattle.scc_proto.specs.Ports.{Seat, Sight, record_in};
ghost use Rattle.put_get.specs.Cores.{Private};
ghost use Rattle.send_recv.specs.Calling.{IsBetweenMessages};
ghost use Rattle.send_recv.specs.Ops.{SlotAt};
ghost use Rattle.sync_flags.specs.Turns.{at_port};
ghost use Rattle.coll_more.specs.Ops.{MoreAt, new_more, table_of, taking_part};
ghost use Rattle.coll_more.specs.Pieces.{HaveMadeCall, pieces_for};
ghost use Rattle.coll_more.specs.Standing.{IsFit, MoreStands};
ghost use Rattle.coll_more.specs.Turns.{more_left, piece_bound};
ghost use Rattle.coll_more.specs.declared.kinds.More.{More};

/// At a rank that is in no call any collective call can begin, with src and dst of their lengths.
pub fn begins_law()
    ensures begins { (s : Sight) (c : Private) (slot : SlotAt) (more : More) (len : ℕ) (src dst : List ℕ) → IsBetweenMessages s c slot
        → IsFit more s.seat.rank s.seat.setup.nue len src dst
        → MoreStands (record_in s).calls (taking_part s c (new_more more len) slot src dst) }
{}

/// The turns that a collective call has left at its start: at most those of its messages, two more for each of them, and two.
pub fn turns_law()
    ensures bound { (seat : Seat) (more : More) (len : ℕ) (slot : SlotAt)
        → more_left seat (new_more more len) slot
        ≤ sum_by (piece_bound seat.setup.layout) (table_of seat (new_more more len)) + 2 * length (table_of seat (new_more more len)) + 2 }
{}

/// Where the calls of all ranks are legal and each rank has made one such call, dst has the pieces: of gather and allgather all
/// that the ranks handed in, of scatter the rank's piece of the root's, of alltoall its piece of every rank's.
pub fn pieces_law()
    ensures pieces { (more : More) (nue len : ℕ) (keys : ℕ → ℕ → ℕ) (calls : ℕ → List DataCall) (slots : ℕ → Option Outgoing)
        (srcs dsts : ℕ → List ℕ)
        → IsLegal nue keys calls slots → HaveMadeCall more nue len srcs dsts calls
        → (rank : ℕ) → rank < nue → dsts rank ≡ pieces_for more nue len srcs rank }
{}

/// What stands at a port stands at every port of the same rank: the same setup, rank and events.
pub fn other_port_law()
    ensures stands { (base : List DataCall) (s : Sight) (mark rest : Gv) (hold : ℕ) (c : Private) (op : MoreAt) (slot : SlotAt)
        (src dst : List ℕ)
        → MoreStands base (taking_part s c op slot src dst) → MoreStands base (taking_part (at_port s mark rest hold) c op slot src dst) }
{}
