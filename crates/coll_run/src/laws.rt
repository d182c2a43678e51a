//! Why a run of a collective call comes to its end, as laws: functions that do nothing and ensure them.

ghost use Rattle.std.specs.Prelude.{◌≡◌, ◌<◌, ℕ, List, true, Some, slice_get};
ghost use Rattle.coll_more.specs.Tables.{piece_calls};
ghost use Rattle.coll_more.specs.Turns.{is_more_over};
ghost use Rattle.coll_more.specs.declared.kinds.More.{More};
ghost use Rattle.coll_more.specs.declared.kinds.PieceCall.{PieceCall};
ghost use Rattle.coll_run.specs.Order.{IsOtherSide, number_at};
ghost use Rattle.coll_run.specs.Resting.{HaveRested};
ghost use Rattle.coll_run.specs.Teams.{MemberView, seat_of};
ghost use Rattle.scc_base.specs.Setups.{SetupView};
ghost use Rattle.scc_base.specs.declared.events.Event.{Event};
ghost use Rattle.scc_proto.specs.Words.{Memory};

/// All ranks make the messages of a collective call in one order.
pub fn order_law()
    // At each rank the numbers of its messages rise.
    ensures rises { (more : More) (nue len rank i j : ℕ) (one other : PieceCall) → rank < nue → i < j
        → slice_get (piece_calls more rank nue len) i ≡ Some one → slice_get (piece_calls more rank nue len) j ≡ Some other
        → number_at more nue rank one < number_at more nue rank other }
    // Each message stands in the table of its other rank too, as a message of the same length the other way.
    ensures mirrored { (more : More) (nue len rank i : ℕ) (one : PieceCall) → rank < nue
        → slice_get (piece_calls more rank nue len) i ≡ Some one
        → (j : ℕ) × (other : PieceCall) × (slice_get (piece_calls more one.peer nue len) j ≡ Some other) × IsOtherSide rank one other }
{}

/// Where every rank rests, every call is at its end: a rank that waits, waits for one that can move.
pub fn rest_law()
    ensures over { (more : More) (len : ℕ) (s : SetupView) (memory : Memory) (lists : ℕ → List Event) (members : ℕ → MemberView)
        → HaveRested more len s memory lists members → (k : ℕ) → k < s.nue → is_more_over (seat_of s k) (members k).op ≡ true }
{}
