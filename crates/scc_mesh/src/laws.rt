//! Laws of looks and turns on a chip, each a function whose contract is the law.

ghost use Rattle.std.specs.Prelude.{◌≡◌, ◌<◌, ◌≤◌, ℕ, List, [], ◌∷◌, ◌++◌, Some, slice_set};
ghost use Rattle.scc_base.specs.Events.{load_of};
ghost use Rattle.scc_base.specs.Places.{WordAt};
ghost use Rattle.scc_base.specs.declared.events.Event.{Event};
ghost use Rattle.scc_proto.specs.Ports.{Did};
ghost use Rattle.scc_proto.specs.Records.{record_of};
ghost use Rattle.scc_mesh.specs.Scenes.{ChipView, WasSeatStep, IsWhole, about_in, home_in, events_in, with_home, sight_in};
ghost use Rattle.scc_mesh.specs.Turns.{IsTurned, Saw, AgreesThen, AgreesNow};

/// A rank of a whole chip that has made some events more leaves the chip whole, and the lists of the others as they were.
pub fn turn_law()
    ensures turned { (chip now : ChipView) (r : ℕ) (events : List Event) → IsWhole chip → r < (about_in chip).nue
        → now ≡ with_home chip (slice_set (home_in chip) r (Some (events_in chip r ++ events))) → IsTurned chip r now }
{}

/// What a port of a rank at home told of an event stands on the chip, also after later events of the port.
pub fn saw_law()
    ensures saw { (old now : ChipView) (r hold : ℕ) (before events : List Event) (e : Event)
        → Did (sight_in old r hold) events (sight_in now r hold)
        → WasSeatStep (sight_in old r hold).seat before e → Saw now r before e }
{}

/// A load of a rank of a whole chip tells the word as it is, so long as only this rank has made events since.
pub fn look_law()
    ensures then { (chip : ChipView) (r : ℕ) (events : List Event) (place : WordAt) (value : ℕ)
        → IsWhole chip → ((q : ℕ) → (about_in chip).nue ≤ q → events_in chip q ≡ [])
        → Saw chip r events (load_of place value) → AgreesThen chip r events place value }
    // with its record as it was right after the load
    ensures now { (chip : ChipView) (r : ℕ) (events : List Event) (place : WordAt) (value : ℕ)
        → IsWhole chip → ((q : ℕ) → (about_in chip).nue ≤ q → events_in chip q ≡ [])
        → Saw chip r events (load_of place value)
        → record_of (about_in chip) r (events_in chip r) ≡ record_of (about_in chip) r (events ++ load_of place value ∷ [])
        → AgreesNow chip place value }
{}
