//! The lines of links.

ghost use Rattle.std.specs.Prelude.{◌≡◌, ◌<◌};
ghost use Rattle.rcce_io.specs.Sending.{Sends};
ghost use Rattle.mesh_load.specs.Mesh.{link_at, neighbour};
ghost use Rattle.mesh_load.specs.Tables.{load_on};
ghost use Rattle.mesh_program.specs.Texts.{link_text, mesh_text, tile_text};

use mesh_load::{Dir, Load};
use rcce_io::Piece::{Number, Text};
use rcce_io::{Sink, WriteFault, write_texts};

/// A tile of the mesh.
#[derive(Clone, Copy)]
struct Tile {
    x: u8,
    y: u8,
}

/// The tile to which a link goes.
fn neighbour(tile: Tile, dir: Dir) -> Tile
    requires column { tile.x < 6 }
    requires row { tile.y < 4 }
    ensures column { result.x ≡ (neighbour (record { x = tile.x; y = tile.y }) dir).x }
    ensures row { result.y ≡ (neighbour (record { x = tile.x; y = tile.y }) dir).y }
{
    match dir {
        Dir::East => Tile {
            x: tile.x + 1,
            y: tile.y,
        },
        Dir::West => Tile {
            x: tile.x.saturating_sub(1),
            y: tile.y,
        },
        Dir::North => Tile {
            x: tile.x,
            y: tile.y + 1,
        },
        Dir::South => Tile {
            x: tile.x,
            y: tile.y.saturating_sub(1),
        },
    }
}

/// Writes the line of a link, if it carries any lines.
fn write_link<S: Sink>(sink: &mut S, load: &Load, x: u8, y: u8, dir: Dir) -> Result<(), WriteFault>
    requires column { x < 6 }
    requires row { y < 4 }
    ensures { Sends (link_text (load_on load.now) (link_at x y dir)) (S.seen sink.old) (S.seen sink.new) result }
{
    let lines = load.link(x, y, dir);
    if lines == 0 {
        return Ok(());
    }
    let to = neighbour(Tile { x, y }, dir);
    write_texts(
        sink,
        &[
            Number(x as u64),
            Text(","),
            Number(y as u64),
            Text(" -> "),
            Number(to.x as u64),
            Text(","),
            Number(to.y as u64),
            Text(" "),
            Number(lines),
            Text("\n"),
        ],
    )
}

/// Writes the lines of the links from a tile, east, west, north and south.
fn write_tile<S: Sink>(sink: &mut S, load: &Load, number: u8) -> Result<(), WriteFault>
    requires { number < 24 }
    ensures { Sends (tile_text (load_on load.now) number) (S.seen sink.old) (S.seen sink.new) result }
{
    let x = number % 6;
    let y = number / 6;
    write_link(sink, load, x, y, Dir::East)?;
    write_link(sink, load, x, y, Dir::West)?;
    write_link(sink, load, x, y, Dir::North)?;
    write_link(sink, load, x, y, Dir::South)
}

/// Writes the lines of all links, by tile number.
pub fn write_mesh<S: Sink>(sink: &mut S, load: &Load) -> Result<(), WriteFault>
    ensures { Sends (mesh_text (load_on load.now)) (S.seen sink.old) (S.seen sink.new) result }
{
    for number in 0..24 {
        write_tile(sink, load, number)?;
    }
    Ok(())
}
