//! The port of a rank that is at home.

ghost use Rattle.std.specs.Prelude.{◌≡◌, true};
ghost use Rattle.scc_mesh.specs.Scenes.{is_port_of};

use crate::chip::Chip;
use scc_base::{Access, CoreId, Place, Rank, Setup};
use scc_proto::Port;

/// A port of one rank of a chip whose other ranks rest meanwhile. Each call is one step on the chip's words.
#[derive(Drop)]
pub struct OnePort<'c> {
    pub chip: &'c mut Chip,
    pub rank: Rank,
    ghost home: { is_port_of chip.now rank ≡ true },
}

impl<'c> Port for OnePort<'c> {
    ghost use Rattle.scc_mesh.specs.Scenes.{WasSeatStep, sight_in};

    ghost sight = { λ p. sight_in p.chip.now p.rank p.chip.ghost_name };

    ghost stepped = { WasSeatStep };

    fn setup(&self) -> &Setup {
        self.chip.setup()
    }

    fn rank(&self) -> Rank {
        self.chip.tells();
        self.rank
    }

    fn load(&mut self, p: Place) -> u64 {
        self.chip.make(self.rank, Access::Load, p, 0)
    }

    fn store(&mut self, p: Place, v: u64) {
        self.chip.make(self.rank, Access::Store, p, v);
    }

    fn take(&mut self, c: CoreId) -> bool {
        self.chip
            .make(self.rank, Access::Take, Place::register(c), 0)
            == 0
    }

    fn free(&mut self, c: CoreId) {
        self.chip
            .make(self.rank, Access::Free, Place::register(c), 0);
    }
}
