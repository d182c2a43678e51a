//! The load of each link.

use crate::tables::{along_columns, along_rows};
use std::marker::Model;

/// A direction of the mesh: towards the next higher column, the next lower one, the next higher row, the next lower one.
#[derive(Clone, Copy)]
pub enum Dir {
    East,
    West,
    North,
    South,
}

/// How many lines each link carries.
#[derive(Drop)]
pub struct Load {
    pub(crate) rows: [u64; 144],
    pub(crate) columns: [u64; 96],
}

impl Model for Load {
    ghost use Rattle.std.specs.Prelude.{◌≤◌, ◌^◌};
    ghost use Rattle.mesh_load.specs.Tables.{Loads, total};

    ghost Value = { Loads };

    ghost view = { λ l. record { rows = l.rows; columns = l.columns } };

    ghost invariant = { λ l. (total l.rows ≤ 2 ^ 52) × (total l.columns ≤ 2 ^ 52) };
}

impl Load {
    ghost use Rattle.std.specs.Prelude.{◌≡◌};
    ghost use Rattle.mesh_load.specs.Mesh.{link_at};
    ghost use Rattle.mesh_load.specs.Tables.{load_on};

    /// How many lines the link carries that goes from the tile in column x and row y in this direction.
    pub fn link(&self, x: u8, y: u8, dir: Dir) -> u64
        ensures { result ≡ load_on self.now (link_at x y dir) }
    {
        along_rows(&self.rows, x, y, dir) + along_columns(&self.columns, x, y, dir)
    }
}
