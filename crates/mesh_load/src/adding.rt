//! The load of the mesh by the messages of a run.

ghost use Rattle.std.specs.Prelude.{◌≡◌, ◌*◌, sum_by};
ghost use Rattle.mesh_load.specs.Mesh.{Link, all_links, lines_over_link, distance_of, lines_moved};
ghost use Rattle.mesh_load.specs.Tables.{load_on};

use crate::links::Load;
use crate::tables::{add_columns, add_pairs, add_rows};
use scc_base::CoreId;
use script_plain::Matches;

/// The load of the mesh by the messages of a run, with the core of each rank. It takes no memory.
pub fn load(matches: &Matches, at: &[CoreId; 48]) -> Load
    // Each link carries the lines of the messages whose route holds it.
    ensures each { (link : Link) → load_on result link ≡ lines_over_link at.now matches.now link }
    // All links together carry the lines of each message as often as its route is long.
    ensures whole { sum_by (load_on result) all_links ≡ sum_by (λ one. lines_moved one.head.len * distance_of at.now one) matches.now }
{
    let pairs = add_pairs(matches, at);
    let rows = add_rows(&pairs);
    let columns = add_columns(&pairs);
    Load { rows, columns }
}
