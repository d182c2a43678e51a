//! The tables in which lines are added up.

ghost use Rattle.std.specs.Prelude.{◌≡◌, ◌*◌, ◌/◌, ◌<◌, ◌≤◌, ◌^◌, ℕ, Bool, if◌then◌else◌, sum_by};
ghost use Rattle.std.specs.List.{All};
ghost use Rattle.mesh_load.specs.Mesh.{mesh_core_of, lines_moved, link_at};
ghost use Rattle.mesh_load.specs.Tables.{IsPlaced, sum_where, column_cell, in_column, in_row, pair_place, row_cell, total};

use crate::links::Dir;
use scc_base::{CoreId, Head, Rank};
use script_plain::Matches;

/// The number of the tile of a rank.
fn tile(at: &[CoreId; 48], rank: Rank) -> usize
    ensures same { result ≡ mesh_core_of at.now rank / 2 }
    ensures placed { mesh_core_of at.now rank < 48 }
{
    (at[rank.number() as usize].number() / 2) as usize
}

/// How many lines a message moves.
fn lines(head: Head) -> u64
    ensures same { result ≡ lines_moved head.len }
    ensures few { result ≤ 2049 }
{
    1 + (head.len() as u64 + 31) / 32
}

/// The lines that go from tile to tile, for each pair of tiles.
pub fn add_pairs(matches: &Matches, at: &[CoreId; 48]) -> [u64; 576]
    ensures sums { (test : ℕ → Bool)
        → sum_where test result ≡ sum_by (λ one. if test (pair_place at.now one) then lines_moved one.head.len else 0) matches.now }
    ensures placed { All (IsPlaced at.now) matches.now }
    ensures few { total result ≤ 2 ^ 52 }
{
    let mut pairs = [0; 576];
    for i in 0..matches.len() {
        let one = matches.get(i);
        let from = tile(at, one.from);
        let to = tile(at, one.to);
        pairs[from * 24 + to] += lines(one.head);
    }
    pairs
}

/// The lines that go from a tile along its row, for each column to which they go.
pub fn add_rows(pairs: &[u64; 576]) -> [u64; 144]
    requires few { total pairs.now ≤ 2 ^ 52 }
    ensures { (test : ℕ → Bool) → sum_where test result ≡ sum_where (λ pair. test (row_cell pair)) pairs.now }
{
    let mut rows = [0; 144];
    for pair in 0..576 {
        rows[pair / 24 * 6 + pair % 24 % 6] += pairs[pair];
    }
    rows
}

/// The lines that go to a tile along its column, for each row from which they come.
pub fn add_columns(pairs: &[u64; 576]) -> [u64; 96]
    requires few { total pairs.now ≤ 2 ^ 52 }
    ensures { (test : ℕ → Bool) → sum_where test result ≡ sum_where (λ pair. test (column_cell pair)) pairs.now }
{
    let mut columns = [0; 96];
    for pair in 0..576 {
        columns[pair % 24 * 4 + pair / 24 / 6] += pairs[pair];
    }
    columns
}

/// Whether the lines in a place of the table of rows go over a link.
fn is_in_row(x: usize, y: usize, dir: Dir, cell: usize) -> bool
    ensures { result ≡ in_row (link_at x y dir) cell }
{
    match dir {
        Dir::East => y == cell / 6 / 6 && (cell / 6 % 6 <= x && x < cell % 6),
        Dir::West => y == cell / 6 / 6 && (cell % 6 < x && x <= cell / 6 % 6),
        Dir::North | Dir::South => false,
    }
}

/// Whether the lines in a place of the table of columns go over a link.
fn is_in_column(x: usize, y: usize, dir: Dir, cell: usize) -> bool
    ensures { result ≡ in_column (link_at x y dir) cell }
{
    match dir {
        Dir::East | Dir::West => false,
        Dir::North => x == cell / 4 % 6 && (cell % 4 <= y && y < cell / 4 / 6),
        Dir::South => x == cell / 4 % 6 && (cell / 4 / 6 < y && y <= cell % 4),
    }
}

/// The lines that go over a link along its row.
pub fn along_rows(rows: &[u64; 144], x: u8, y: u8, dir: Dir) -> u64
    requires few { total rows.now ≤ 2 ^ 52 }
    ensures sum { result ≡ sum_where (in_row (link_at x y dir)) rows.now }
    ensures few { result ≤ 2 ^ 52 }
{
    let mut sum = 0;
    for cell in 0..144 {
        if is_in_row(x as usize, y as usize, dir, cell) {
            sum += rows[cell];
        }
    }
    sum
}

/// The lines that go over a link along its column.
pub fn along_columns(columns: &[u64; 96], x: u8, y: u8, dir: Dir) -> u64
    requires few { total columns.now ≤ 2 ^ 52 }
    ensures sum { result ≡ sum_where (in_column (link_at x y dir)) columns.now }
    ensures few { result ≤ 2 ^ 52 }
{
    let mut sum = 0;
    for cell in 0..96 {
        if is_in_column(x as usize, y as usize, dir, cell) {
            sum += columns[cell];
        }
    }
    sum
}
