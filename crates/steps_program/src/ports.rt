//! Many accesses through a port of a chip.

ghost use Rattle.std.specs.Prelude.{◌≡◌, ◌<◌, ℕ, [], IfOk};
ghost use Rattle.scc_mesh.specs.Scenes.{IsWhole, IsNew, about_in, events_in};
ghost use Rattle.steps_program.specs.Steps.{HasMade, HasMadeAway};

use crate::accesses::{Kind, make_many};
use scc_base::{Layout, Rank, Setup, own_cores, world_alone};
use scc_mesh::{Chip, Token};
use std::alloc::{AllocError, Global};

// 48 ranks with line flags.
fn setup() -> Setup {
    match Setup::new(48, Layout::lines(), own_cores(), world_alone()) {
        Some(setup) => setup,
        None => unreachable!(),
    }
}

fn make_at_home(chip: &mut Chip, kind: Kind, count: u32)
    requires whole { IsWhole chip.old }
    requires empty { (r : ℕ) → events_in chip.old r ≡ [] }
    ensures made { HasMade chip.new kind count }
{
    chip.known();
    let mut port = chip.port(Rank::of(0));
    make_many(&mut port, kind, count);
}

/// Makes this many loads, or stores, by rank 0, whose port is with the chip.
pub fn by_port(alloc: Global, kind: Kind, count: u32) -> Result<Chip, AllocError>
    ensures made { IfOk result (λ chip. HasMade chip kind count) }
{
    let mut chip = Chip::blank();
    chip.open(alloc, setup())?;
    make_at_home(&mut chip, kind, count);
    Ok(chip)
}

/// A chip, and the token of a rank whose port is in a thread.
#[derive(Drop)]
pub struct Away {
    pub chip: Chip,
    pub token: Token,
}

fn make_away(chip: &mut Chip, kind: Kind, count: u32) -> Token
    requires whole { IsWhole chip.old }
    requires empty { (r : ℕ) → events_in chip.old r ≡ [] }
    ensures made { HasMadeAway chip.new result kind count }
{
    chip.known();
    let token = chip.spread(Rank::of(0));
    let mut port = chip.words().port(token);
    make_many(&mut port, kind, count);
    port.into_token()
}

/// Makes this many loads, or stores, by rank 0, whose port is in a thread.
pub fn by_seat(alloc: Global, kind: Kind, count: u32) -> Result<Away, AllocError>
    ensures made { IfOk result (λ made. HasMadeAway made.chip made.token kind count) }
{
    let mut chip = Chip::blank();
    chip.open(alloc, setup())?;
    let token = make_away(&mut chip, kind, count);
    Ok(Away { chip, token })
}
