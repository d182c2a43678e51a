//! The chip: its shared words, and the ports through which ranks reach them, at home or away.

use crate::away::Words;
use crate::board::Board;
use crate::port::OnePort;
use crate::tokens::Token;
use scc_base::{Access, Place, Rank, Setup};
use std::alloc::{AllocError, Global};
use std::marker::Model;

/// The shared words of one chip: 48 cores with 256 lines of four words and a test-and-set register each.
/// The lists of events that a contract sees stand in proofs alone; the running program stores none.
#[derive(Drop)]
pub struct Chip {
    board: Option<Board>,
}

impl Model for Chip {
    ghost use Rattle.std.specs.Prelude.{Option};
    ghost use Rattle.scc_mesh.specs.Scenes.{Scene};

    ghost Value = { Option Scene };

    ghost view = { λ c. c.board };
}

impl Chip {
    ghost use Rattle.std.specs.Prelude.{◌≡◌, ◌<◌, ℕ, None, Some, [], slice_set, IfOk, IfErr, Contains, ◌⊎◌, ◌≤◌};
    ghost use Rattle.scc_base.specs.Events.{load_of};
    ghost use Rattle.scc_base.specs.Places.{WordAt};
    ghost use Rattle.scc_base.specs.Setups.{IsSetup, setup_key};
    ghost use Rattle.scc_proto.specs.Messages.{barriers_of};
    ghost use Rattle.scc_proto.specs.Words.{HeapWord, Memory, role_of};
    ghost use Rattle.scc_proto.specs.Passed.{passed_calls, slot_of};
    ghost use Rattle.scc_proto.specs.Legality.{IsLegal};
    ghost use Rattle.scc_proto.specs.PairMessages.{PairMessages};
    ghost use Rattle.scc_proto.specs.Agreement.{Agrees};
    ghost use Rattle.scc_mesh.specs.SeatViews.{without};
    ghost use Rattle.scc_mesh.specs.Keeping.{Made, MayAccess, IsStoredAt, event_found};
    ghost use Rattle.scc_mesh.specs.Scenes.{IsOpen, IsHome, IsWhole, IsNew, KnowsHome, is_chip_open, about_in, home_in, table_in, events_in, records_in, with_home};

    /// A chip with no words yet.
    pub fn blank() -> Chip
        ensures blank { result ≡ None }
    {
        Chip { board: None }
    }

    /// Makes the chip's words, all 0, of two blocks of memory of which one is given back.
    pub fn open(&mut self, alloc: Global, setup: Setup) -> Result<(), AllocError>
        requires blank { self.old ≡ None }
        ensures opened { IfOk result (λ done. IsNew setup self.new) }
        ensures refused { IfErr result (λ failed. self.new ≡ None) }
    {
        self.board = Some(Board::new(alloc, setup)?);
        Ok(())
    }

    /// Whether the chip has words.
    pub fn is_open(&self) -> bool
        ensures tells { result ≡ is_chip_open self.now }
    {
        self.board.is_some()
    }

    /// The setup with which the chip was opened.
    pub fn setup(&self) -> &Setup
        requires opened { IsOpen self.now }
        ensures gives { result.now ≡ about_in self.now }
    {
        let Some(board) = &self.board else {
            unreachable!()
        };
        board.setup()
    }

    /// Does nothing. It tells a proof that the chip's setup is one that a run may have.
    pub fn known(&self)
        requires opened { IsOpen self.now }
        ensures valid { IsSetup (about_in self.now) }
    {
        let _ = self.setup().nue();
    }

    /// The way of one rank to the shared words, in this thread.
    pub fn port(&mut self, r: Rank) -> OnePort<'_>
        requires opened { IsOpen self.old }
        requires home { IsHome self.old r }
        requires below { r < (about_in self.old).nue }
        ensures same { result.chip.now ≡ self.old }
        ensures rank { result.rank ≡ r }
        ensures name { result.chip.ghost_name ≡ self.entry.ghost_name }
    {
        OnePort {
            chip: self,
            rank: r,
        }
    }

    /// Hands out one rank, which is then away: another thread may make its events.
    pub fn spread(&mut self, r: Rank) -> Token
        requires opened { IsOpen self.old }
        requires home { IsHome self.old r }
        ensures chip { self.new ≡ with_home self.old (without (home_in self.old) r) }
        ensures same { IsOpen self.new × (about_in self.new ≡ about_in self.old) × (table_in self.new ≡ table_in self.old) }
        ensures token { result ≡ record { table = table_in self.old; rank = r; events = events_in self.old r } }
    {
        let Some(board) = &mut self.board else {
            unreachable!()
        };
        board.spread(r)
    }

    /// The chip's words, for the ports of ranks that are away.
    pub fn words(&self) -> Words<'_>
        requires opened { IsOpen self.now }
        ensures about { result.space.now.about ≡ about_in self.now }
        ensures table { result.space.now.table ≡ table_in self.now }
    {
        let Some(board) = &self.board else {
            unreachable!()
        };
        board.words()
    }

    /// Takes a rank home.
    pub fn gather(&mut self, token: Token)
        requires opened { IsOpen self.old }
        requires of_chip { token.table ≡ table_in self.old }
        ensures chip { self.new ≡ with_home self.old (slice_set (home_in self.old) token.rank (Some token.events)) }
        ensures below { token.rank < (about_in self.old).nue }
        ensures home { IsHome self.new token.rank }
        ensures events { events_in self.new token.rank ≡ token.events }
        ensures same { IsOpen self.new × (about_in self.new ≡ about_in self.old) × (table_in self.new ≡ table_in self.old) }
    {
        let Some(board) = &mut self.board else {
            unreachable!()
        };
        board.gather(token);
    }

    /// What holds of an open chip with all ranks at home. It does nothing: a caller cites its clauses.
    pub fn agrees(&self)
        requires whole { IsWhole self.now }
        ensures words { (memory : Memory) × Agrees (about_in self.now) memory (records_in self.now) }
        ensures beyond { (r : ℕ) → (about_in self.now).nue ≤ r → events_in self.now r ≡ [] }
        ensures messages { (from to : ℕ) → from < (about_in self.now).nue → PairMessages (about_in self.now) from to (records_in self.now) }
        ensures calls { IsLegal (about_in self.now).nue (setup_key (about_in self.now))
            (passed_calls (about_in self.now) (records_in self.now)) (slot_of (about_in self.now) (records_in self.now)) }
        ensures barriers { (comm r k : ℕ) → r < (about_in self.now).nue → k < (about_in self.now).nue
            → setup_key (about_in self.now) comm r ≡ setup_key (about_in self.now) comm k
            → barriers_of comm (records_in self.now r).calls ≤ (records_in self.now k).flips comm }
        ensures heap { (r : ℕ) (place : WordAt) (value : ℕ) → role_of (about_in self.now) place ≡ HeapWord
            → Contains (events_in self.now r) (load_of place value) → (value ≡ 0) ⊎ IsStoredAt (events_in self.now) place value }
    {
        self.tells();
    }

    /// What the chip's seat knows.
    pub(crate) fn tells(&self)
        ensures knows { KnowsHome self.now }
    {
        if let Some(board) = &self.board {
            board.tells();
        }
    }

    /// The one step that is an event of a rank at home. The answer is the number that a load or a take found.
    pub(crate) fn make(&mut self, rank: Rank, access: Access, place: Place, value: u64) -> u64
        requires opened { IsOpen self.old }
        requires known { IsHome self.old rank }
        requires permitted { MayAccess (about_in self.old) rank (events_in self.old rank) access place value }
        ensures did { Made (about_in self.old) rank (home_in self.old) (event_found access place value result) (home_in self.new) }
        ensures same { IsOpen self.new × (about_in self.new ≡ about_in self.old) × (table_in self.new ≡ table_in self.old) }
    {
        let Some(board) = &mut self.board else {
            unreachable!()
        };
        board.make(rank, access, place, value)
    }
}
