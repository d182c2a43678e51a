//! The laws of taps.

ghost use Rattle.std.specs.Prelude.{◌≡◌, ◌++◌, ℕ, All, List, map, true};
ghost use Rattle.scc_base.specs.Calls.{DataCall, HasItsBytes, call_of};
ghost use Rattle.scc_base.specs.Setups.{SetupView};
ghost use Rattle.scc_base.specs.declared.calls.Call.{Call};
ghost use Rattle.scc_base.specs.declared.events.Event.{Event};
ghost use Rattle.scc_proto.specs.Records.{record_of};
ghost use Rattle.call_tap.specs.declared.taps.Tap.{Tap};
ghost use Rattle.call_tap.specs.Bytes.{HasBytes};
ghost use Rattle.call_tap.specs.Kept.{AreKept, HasTapRoom};
ghost use Rattle.call_tap.specs.Planned.{has_room_for};
ghost use Rattle.call_tap.specs.Taps.{HasRead};

/// A tap keeps the calls that its rank has finished, in their order and with their bytes, as long as it has room for them.
pub fn kept_law()
    ensures law { (tap : Tap) (s : SetupView) (rank : ℕ) (events : List Event) → HasRead tap s rank events
        → HasTapRoom (record_of s rank events).calls → AreKept tap.kept (record_of s rank events).calls }
{}

/// Room for all calls of a program, which are known before it runs but for their bytes, is room for those that a rank has
/// finished, as long as these are the first ones of the program.
pub fn room_law()
    ensures law { (planned rest : List Call) (calls : List DataCall) → has_room_for planned ≡ true → planned ≡ map call_of calls ++ rest
        → All HasItsBytes calls → HasTapRoom calls }
{}

/// The bytes of each finished call are bytes: they were told from words.
pub fn bytes_law()
    ensures law { (s : SetupView) (rank : ℕ) (events : List Event) → All HasBytes (record_of s rank events).calls }
{}
