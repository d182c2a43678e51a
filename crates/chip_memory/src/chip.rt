//! A chip in memory, and the port of the rank whose turn it is.

use crate::words::ChipWords;
use scc_base::{Access, CoreId, Event, Place, Rank, Setup};
use scc_proto::{History, Port};
use std::alloc::{AllocError, Global};
use std::marker::Model;

/// A chip in memory. One rank at a time has its turn and makes events, so all events have one order, and each word is what was
/// stored last.
///
/// It is seen as its setup, the rank whose turn it is, the events of all ranks before this turn, and those since.
#[derive(Drop)]
pub struct TurnChip {
    setup: Setup,
    rank: Rank,
    words: ChipWords,
    own: History<Event>,
}

impl Model for TurnChip {
    ghost use Rattle.chip_memory.specs.Chips.{TurnChipView, IsTurnChip, chip_view};

    ghost Value = { TurnChipView };

    ghost view = { λ c. chip_view c.setup c.rank c.words c.own.items };

    ghost invariant = { λ c. IsTurnChip c.setup c.rank c.words c.own.items };
}

impl TurnChip {
    ghost use Rattle.std.specs.Prelude.{◌≡◌, ◌<◌, ◌∷◌, ◌⊎◌, [], IfOk};
    ghost use Rattle.scc_base.specs.Events.{IsEvent};
    ghost use Rattle.scc_base.specs.Setups.{IsSetup};
    ghost use Rattle.scc_proto.specs.Histories.{IsPermittedRun, memory_from};
    ghost use Rattle.scc_proto.specs.Ports.{Did, IsSoundPort, MayMake, record_in};
    ghost use Rattle.scc_proto.specs.Stages.{blank};
    ghost use Rattle.scc_proto.specs.Words.{IsRun, IsStep, zeros};
    ghost use Rattle.chip_memory.specs.Chips.{WasStepHere, all_events, new_chip, turn_sight, with_turn};
    ghost use Rattle.chip_memory.specs.Steps.{IsOnChip, stands_by};

    /// A chip whose words are all 0. It is the turn of a rank.
    pub fn new(alloc: Global, setup: Setup, rank: Rank) -> Result<TurnChip, AllocError>
        requires below { rank < setup.nue }
        ensures gives { IfOk result (λ chip. chip ≡ new_chip setup rank) }
    {
        let _nue = setup.nue();
        let words = ChipWords::new(alloc)?;
        Ok(TurnChip {
            setup,
            rank,
            words,
            own: History::new(),
        })
    }

    /// Makes it the turn of this rank, from now on.
    pub fn turn_to(&mut self, rank: Rank)
        requires below { rank < self.old.setup.nue }
        ensures turns { self.new ≡ with_turn self.old rank }
    {
        self.rank = rank;
        self.own = History::new();
    }

    /// What holds of the events so far. It does nothing: a caller cites its clauses.
    pub fn tells(&self)
        // Each event was a step of the words as the events before it left them: a load answered what was stored last.
        ensures run { IsRun zeros (all_events self.now) }
        // Each was one that the record of its rank permitted after the rank's events before it.
        ensures permitted { IsPermittedRun self.now.setup (λ r. blank) (all_events self.now) }
        ensures valid { IsSetup self.now.setup }
        ensures below { self.now.rank < self.now.setup.nue }
    {
        let _setup = &self.setup;
    }

    // What an access finds. A register is 0 or 1.
    fn stands_at(&self, access: Access, place: Place) -> u64
        ensures gives { result ≡ stands_by access place (memory_from zeros (all_events self.now)) }
        ensures there { IsOnChip access place }
        ensures register { ((memory_from zeros (all_events self.now)).register place.core ≡ 0)
            ⊎ ((memory_from zeros (all_events self.now)).register place.core ≡ 1) }
    {
        self.words.stands_at(access, place)
    }

    // Makes an event of the rank whose turn it is.
    fn make(&mut self, event: Event)
        requires event { IsOnChip event.access event.place → IsEvent event }
        requires step { IsStep (memory_from zeros (all_events self.old)) event }
        requires permitted { MayMake (turn_sight self.old).seat (record_in (turn_sight self.old)) event }
        ensures did { Did (turn_sight self.old) (event ∷ []) (turn_sight self.new) }
        ensures step { WasStepHere (turn_sight self.old).seat (turn_sight self.old).events event }
        ensures sound { IsSoundPort (turn_sight self.new) }
    {
        self.words.make(self.rank, &event);
        self.own = self.own.and(&event);
    }
}

impl Port for TurnChip {
    ghost use Rattle.chip_memory.specs.Chips.{WasStepHere, turn_sight};

    ghost sight = { turn_sight };

    ghost stepped = { WasStepHere };

    fn setup(&self) -> &Setup {
        &self.setup
    }

    fn rank(&self) -> Rank {
        self.rank
    }

    fn load(&mut self, p: Place) -> u64 {
        let value = self.stands_at(Access::Load, p);
        self.make(Event::load(p, value));
        value
    }

    fn store(&mut self, p: Place, v: u64) {
        self.make(Event::store(p, v));
    }

    fn take(&mut self, c: CoreId) -> bool {
        let taken = self.stands_at(Access::Take, Place::register(c)) == 0;
        self.make(Event::take(c, taken));
        taken
    }

    fn free(&mut self, c: CoreId) {
        self.make(Event::free(c));
    }
}
