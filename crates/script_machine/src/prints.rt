//! What a rank printed, in memory that was allocated at the start.

ghost use Rattle.std.specs.Prelude.{◌≡◌, ◌≤◌, ◌+◌, ◌++◌, length, vec_capacity};
ghost use Rattle.scc_base.specs.Heads.{most_message};

use script_rules::Form;
use std::alloc::{AllocError, Global};
use std::marker::Model;

/// A printed register: which one, in which form, and the place of its bytes among the printed bytes.
#[derive(Clone, Copy)]
pub struct Entry {
    pub reg: u8,
    pub form: Form,
    pub start: usize,
    pub len: u32,
}

/// The items that a rank printed: their bytes one after the other, and a table of the items. It can hold all that the rank will
/// print.
#[derive(Drop)]
pub struct Prints {
    bytes: Vec<u8>,
    table: Vec<Entry>,
    most: usize,
}

impl Model for Prints {
    ghost use Rattle.std.specs.Prelude.{◌≡◌, ◌≤◌, length, map};
    ghost use Rattle.std.specs.Vec.{vec_capacity};
    ghost use Rattle.script_machine.specs.Lengths.{printed_bytes};
    ghost use Rattle.script_machine.specs.Rooms.{AreCut, PrintsView, printed_of_entry};

    ghost Value = { PrintsView };

    ghost view = { λ p. record {
      items = map (printed_of_entry p.bytes.items) p.table.items;
      room = vec_capacity p.table;
      bytes = p.most;
    } };

    ghost invariant = { λ p.
        AreCut (length p.bytes.items) p.table.items
        × ((printed_bytes (map (printed_of_entry p.bytes.items) p.table.items) ≡ length p.bytes.items) × (p.most ≤ vec_capacity p.bytes)) };
}

/// A printed register, borrowed.
#[derive(Drop)]
pub struct PrintedItem<'p> {
    reg: u8,
    form: Form,
    bytes: &'p [u8],
}

impl<'p> Model for PrintedItem<'p> {
    ghost use Rattle.script_machine.specs.Printed.{Printed};

    ghost Value = { Printed };

    ghost view = { λ p. record { reg = p.reg; form = p.form; bytes = p.bytes.now } };
}

impl<'p> PrintedItem<'p> {
    ghost use Rattle.std.specs.Prelude.{◌≡◌};

    pub fn reg(&self) -> u8
        ensures { result ≡ self.now.reg }
    {
        self.reg
    }

    pub fn form(&self) -> Form
        ensures { result ≡ self.now.form }
    {
        self.form
    }

    pub fn bytes(&self) -> &'p [u8]
        ensures { result.now ≡ self.now.bytes }
    {
        self.bytes
    }
}

impl Prints {
    ghost use Rattle.std.specs.Prelude.{◌≡◌, ◌<◌, ◌≤◌, ◌+◌, ◌++◌, ◌∷◌, [], length, slice_get, IfOk, Some};
    ghost use Rattle.script_machine.specs.Lengths.{printed_bytes};
    ghost use Rattle.scc_base.specs.Heads.{most_message};

    /// An empty table that can hold this many items with this many bytes.
    pub(crate) fn new(alloc: Global, items: usize, bytes: usize) -> Result<Prints, AllocError>
        ensures { IfOk result (λ p. p ≡ record { items = []; room = items; bytes = bytes }) }
    {
        let table = Vec::with_capacity(alloc, items)?;
        let held = Vec::with_capacity(alloc, bytes)?;
        Ok(Prints {
            bytes: held,
            table,
            most: bytes,
        })
    }

    /// A table without items that can hold none.
    pub(crate) fn none(alloc: Global) -> Prints
        ensures { result ≡ record { items = []; room = 0; bytes = 0 } }
    {
        Prints {
            bytes: Vec::new(alloc),
            table: Vec::new(alloc),
            most: 0,
        }
    }

    /// Appends a register to the items.
    pub(crate) fn print(&mut self, reg: u8, form: Form, bytes: &[u8])
        requires short { length bytes.now ≤ most_message }
        requires item { length self.old.items < self.old.room }
        requires room { printed_bytes self.old.items + length bytes.now ≤ self.old.bytes }
        ensures { self.new ≡ record self.old { items = self.old.items ++ record { reg = reg; form = form; bytes = bytes.now } ∷ [] } }
    {
        let start = self.bytes.as_slice().len();
        append(&mut self.bytes, bytes);
        self.table.push_reserved(Entry {
            reg,
            form,
            start,
            len: short_len(bytes),
        });
    }

    /// How many items there are.
    pub fn len(&self) -> usize
        ensures { result ≡ length self.now.items }
    {
        self.table.len()
    }

    /// An item, in the order of printing.
    pub fn item(&self, i: usize) -> PrintedItem<'_>
        requires { i < length self.now.items }
        ensures { slice_get self.now.items i ≡ Some result }
    {
        let entry = self.table[i];
        let rest = &self.bytes.as_slice()[entry.start..];
        PrintedItem {
            reg: entry.reg,
            form: entry.form,
            bytes: &rest[..entry.len as usize],
        }
    }
}

/// Appends bytes to others, within the capacity.
fn append(bytes: &mut Vec<u8>, more: &[u8])
    requires { length bytes.old.items + length more.now ≤ vec_capacity bytes.old }
    ensures items { bytes.new.items ≡ bytes.old.items ++ more.now }
    ensures room { vec_capacity bytes.old ≤ vec_capacity bytes.new }
{
    if bytes.extend_from_slice(more).is_err() {
        unreachable!()
    }
}

fn short_len(bytes: &[u8]) -> u32
    requires { length bytes.now ≤ most_message }
    ensures { result ≡ length bytes.now }
{
    bytes.len() as u32
}
