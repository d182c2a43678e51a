//! Two ranks pass balls, each in a thread of its own: one serves them, the other hits them back.
#![tactic(auto)]

mod players;
mod rallies;

use line_cache::Never;
use rallies::{Ball, rally};
use scc_base::world_of;
use scc_mesh::Chip;
use station::Station;
use std::io;

/// How many balls are served.
const BALLS: usize = 5;

fn main(rt: HostRuntime) -> io::Result<()> {
    let Some(setup) = world_of(2) else {
        return println!(rt; "no setup");
    };
    let mut chip = Chip::blank();
    let Ok(()) = chip.open(rt.alloc(), setup) else {
        return println!(rt; "no memory");
    };
    let mut one = Station::new(Never);
    let mut other = Station::new(Never);
    let balls: [Ball; BALLS] = [*b"ping", *b"pong", *b"spin", *b"drop", *b"lobs"];
    let mut seen: [Ball; BALLS] = [[0; 4]; BALLS];
    let mut back: [Ball; BALLS] = [[0; 4]; BALLS];
    match rally(
        &rt, &mut chip, &mut one, &mut other, &balls, &mut seen, &mut back,
    ) {
        Ok(()) => {
            for ball in &back {
                let text = str::from_utf8(ball).unwrap_or("?");
                println!(rt; "{text} came back")?;
            }
            Ok(())
        }
        Err(stop) => println!(rt; "{stop}"),
    }
}
