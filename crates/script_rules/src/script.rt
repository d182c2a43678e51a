//! Statements as types, and a script that was read.

ghost use Rattle.std.specs.Prelude.{◌≡◌, ◌<◌, ◌≤◌};
ghost use Rattle.script_rules.specs.Script.{IsSized, first_split, has_rank, peer_of, rules_of};

use crate::effect::effect_of;
use crate::name::Name;
use groups::{Op, Ty};
use scc_base::{CommRule, CoreId, Layout, Rank, Setup};
use std::marker::Model;
use texts::Bytes;

/// The ranks of a section.
#[derive(Drop)]
pub enum Who {
    All,
    Even,
    Odd,
    /// The ranks from the first to the second, both included.
    Span(Rank, Rank),
}

impl Who {
    /// A copy of the section.
    pub fn copy(&self) -> Who
        ensures { result ≡ self.now }
    {
        match self {
            Who::All => Who::All,
            Who::Even => Who::Even,
            Who::Odd => Who::Odd,
            Who::Span(first, last) => Who::Span(*first, *last),
        }
    }

    /// Whether this rank is in the section.
    pub fn has(&self, rank: u8) -> bool
        ensures { result ≡ has_rank self.now rank }
    {
        match self {
            Who::All => true,
            Who::Even => rank % 2 == 0,
            Who::Odd => rank % 2 == 1,
            Who::Span(first, last) => first.number() <= rank && rank <= last.number(),
        }
    }
}

/// The other rank of a message.
#[derive(Clone, Copy)]
pub enum Peer {
    Abs(Rank),
    /// The rank n above the caller, modulo the number of ranks.
    Plus(u32),
    /// The rank n below the caller, modulo the number of ranks.
    Minus(u32),
}

impl Peer {
    /// The other rank of a message of the rank `caller`, in a run of `nue` ranks.
    pub fn rank(&self, nue: u8, caller: Rank) -> Rank
        requires some { 1 ≤ nue }
        requires most { nue ≤ 48 }
        requires within { caller < nue }
        ensures { result ≡ peer_of nue self.now caller }
    {
        let ranks = nue as u64;
        let here = caller.number() as u64;
        match self {
            Peer::Abs(rank) => *rank,
            Peer::Plus(up) => Rank::of(((here + *up as u64) % ranks) as u8),
            Peer::Minus(down) => {
                let round = ranks - *down as u64 % ranks;
                Rank::of(((here + round) % ranks) as u8)
            }
        }
    }
}

/// How a register is printed.
#[derive(Clone, Copy)]
pub enum Form {
    Hex,
    /// As values of this type.
    Decimal(Ty),
}

/// A local statement: it works on the rank's own registers and keeps their lengths.
#[derive(Clone, Copy)]
pub enum OwnStmt {
    /// DST becomes `DST op SRC`, value by value.
    Apply { op: Op, ty: Ty, dst: u8, src: u8 },
    /// Prints the register.
    Print { reg: u8, form: Form },
}

/// A statement. Registers are numbered from 0 in the order of their first appearance in the file, and lengths count
/// bytes.
#[derive(Drop)]
pub enum Stmt {
    /// Sets the register to these bytes.
    Bytes {
        reg: u8,
        bytes: Bytes,
    },
    /// Sets the register to this many bytes, of which byte i is `(start + i) mod 251`.
    Fill {
        reg: u8,
        len: u32,
        start: u32,
    },
    /// Sets the register to the rank, as one value of the type.
    RankOf {
        reg: u8,
        ty: Ty,
    },
    /// A local statement.
    Own(OwnStmt),
    /// Sends the register's bytes as a plain message.
    Send {
        peer: Peer,
        reg: u8,
    },
    /// Posts the register's bytes as a plain message; the rank does not wait for the receiver.
    Post {
        peer: Peer,
        reg: u8,
    },
    /// Receives a plain message of this length into the register.
    Recv {
        peer: Peer,
        reg: u8,
        len: u32,
    },
    /// A barrier of the communicator.
    Barrier {
        comm: u8,
    },
    /// A barrier of the rule's parent. After it, the communicator is the rank's group by this rule.
    Split {
        comm: u8,
        rule: CommRule,
    },
    /// Copies the root's register to each member of the group. The root is a place in the group.
    Bcast {
        comm: u8,
        root: u8,
        reg: u8,
        len: u32,
    },
    /// Folds all members' SRC into the root's DST.
    Reduce {
        comm: u8,
        root: u8,
        op: Op,
        ty: Ty,
        dst: u8,
        src: u8,
    },
    /// Folds all members' SRC into each member's DST.
    Allreduce {
        comm: u8,
        op: Op,
        ty: Ty,
        dst: u8,
        src: u8,
    },
    /// The statements up to the item `end` run `times` times.
    Repeat {
        times: u32,
        end: u32,
    },
    /// Ends the repeat that is the item `start`.
    End {
        start: u32,
    },
}

/// A statement with its line, counted from 1, and the ranks of its section.
#[derive(Drop)]
pub struct Item {
    pub line: u32,
    pub who: Who,
    pub stmt: Stmt,
}

/// A script that was read.
#[derive(Drop)]
pub struct Scripts {
    ranks: u8,
    statements: Vec<Item>,
    registers: Vec<Name>,
}

impl Model for Scripts {
    ghost use Rattle.script_rules.specs.Script.{Script};
    ghost use Rattle.script_rules.specs.Settled.{IsAccepted};

    ghost Value = { Script };

    ghost view = { λ s. record { nue = s.ranks; items = s.statements.items; names = s.registers.items } };

    ghost invariant = { λ s. IsAccepted s.ranks s.statements.items s.registers.items };
}

impl Scripts {
    /// A script of statements that the checks have accepted.
    pub fn new(ranks: u8, statements: Vec<Item>, registers: Vec<Name>) -> Scripts
        requires { IsAccepted ranks statements.items registers.items }
        ensures { result ≡ record { nue = ranks; items = statements.items; names = registers.items } }
    {
        Scripts {
            ranks,
            statements,
            registers,
        }
    }

    ghost use Rattle.scc_base.specs.Communicators.{AreRules};
    ghost use Rattle.scc_base.specs.Setups.{AreApart};
    ghost use Rattle.script_rules.specs.Acceptance.{ForEachRun, IsFitting, IsPostable, IsReadable, groups_of, length_before, length_of};
    ghost use Rattle.script_rules.specs.Checks.{open_of, operations, bytes_printed};
    ghost use Rattle.script_rules.specs.Effects.{effect_of};
    ghost use Rattle.script_rules.specs.Script.{rules_of};
    ghost use Rattle.script_rules.specs.Settled.{ArePassed, IsAccepted, IsNamed, IsSettled, IsWholeScript};
    ghost use Rattle.std.specs.Prelude.{◌≡◌, ◌<◌, ◌≤◌, ℕ, All, [], length, reverse, slice_get, slice_index_or, take};
    ghost use Rattle.scc_base.specs.Heads.{most_message};
    ghost use Rattle.script_rules.specs.Limits.{most_open, most_operations, most_printed};

    /// How many statements the script has.
    pub fn len(&self) -> usize
        ensures { result ≡ length self.now.items }
    {
        self.statements.len()
    }

    /// The statement at this place, in the order of the file.
    pub fn item(&self, i: usize) -> &Item
        requires { i < length self.now.items }
        ensures found { slice_get self.now.items i ≡ Some result.now }
        ensures sized { IsSized result.now.stmt }
        ensures settled { IsSettled self.now.nue (rules_of self.now.items) result.now }
    {
        &self.statements[i]
    }

    /// How many registers the script names.
    pub fn registers(&self) -> usize
        ensures { result ≡ length self.now.names }
    {
        self.registers.len()
    }

    /// The name of a register, or the empty name if no register has this number.
    pub fn name(&self, reg: u8) -> &str
        ensures { result.now ≡ slice_index_or self.now.names reg [] }
    {
        match self.registers.get(reg as usize) {
            Some(name) => name.as_str(),
            None => "",
        }
    }

    /// The rules of the communicators: the world, and for each other one the rule of its first split. A setup can have them.
    pub fn comm_rules(&self) -> [CommRule; 16]
        ensures gives { result ≡ rules_of self.now.items }
        ensures valid { AreRules result }
    {
        rules_of(self.statements.as_slice())
    }

    /// The law of acceptance: no check on ranks refuses a statement of the script for a rank of its section, given the
    /// statements before it. The other clauses state what this means for every statement and every rank that runs it.
    pub fn acceptance_law(&self)
        ensures accepted { ArePassed self.now.nue (reverse self.now.items) }
        // All that holds for each accepted script.
        ensures whole { IsWholeScript self.now.nue self.now.items }
        // The peer of a message is another rank of the run, a communicator that is used has a rule, and a root is a place of
        // its group.
        ensures settled { All (IsSettled self.now.nue (rules_of self.now.items)) self.now.items }
        // A register that is read has been set by the rank in an earlier line.
        ensures set { ForEachRun self.now
            (λ place effect rank. IsReadable (groups_of self.now) (length_before self.now place rank) effect rank) }
        // A register of a rank has one length in the whole script.
        ensures stays { (place rank reg len : ℕ) → length_before self.now place rank reg ≡ Some len
            → length_of self.now rank reg ≡ Some len }
        // Each statement gives or requires exactly this length. Operands of a fold have equal lengths, multiples of the type's
        // width.
        ensures fitting { ForEachRun self.now (λ place effect rank. IsFitting (groups_of self.now) (length_of self.now rank) effect rank) }
        ensures postable { ForEachRun self.now (λ place effect rank. IsPostable (length_of self.now rank) effect) }
    {
        let _ranks = self.ranks;
    }

    /// The limits that each accepted script keeps.
    pub fn limits_law(&self)
        ensures short { (rank reg len : ℕ) → length_of self.now rank reg ≡ Some len → len ≤ most_message }
        ensures worked { (rank : ℕ) → rank < self.now.nue → operations self.now.nue (reverse self.now.items) rank ≤ most_operations }
        ensures printed { (rank : ℕ) → rank < self.now.nue → bytes_printed self.now.nue (reverse self.now.items) rank ≤ most_printed }
        ensures named { All (λ item. IsNamed (length self.now.names) (effect_of item.stmt)) self.now.items }
        // This holds before each statement and at the end.
        ensures shallow { (place : ℕ) → length (open_of (reverse (take place self.now.items))) ≤ most_open }
    {
        let _ranks = self.ranks;
    }

    /// The setup of a run of the script in this layout, on the first `nue` of these cores.
    pub fn setup(&self, layout: Layout, hosts: [CoreId; 48]) -> Setup
        requires apart { AreApart self.now.nue hosts }
        ensures gives { result ≡ record { nue = self.now.nue; layout = layout; hosts = hosts; comms = rules_of self.now.items } }
    {
        match Setup::new(self.nue(), layout, hosts, self.comm_rules()) {
            Some(setup) => setup,
            None => unreachable!(),
        }
    }

    /// How many ranks the script runs on.
    pub fn nue(&self) -> u8
        ensures same { result ≡ self.now.nue }
        ensures some { 1 ≤ result }
        ensures most { result ≤ 48 }
    {
        self.ranks
    }
}

/// The rule of the first split of a communicator.
fn first_split(items: &[Item], comm: u8) -> CommRule
    ensures { result ≡ first_split items.now comm }
{
    for item in items {
        match effect_of(&item.stmt).group.split_rule(comm) {
            CommRule::Absent => {}
            rule => return rule,
        }
    }
    CommRule::Absent
}

/// The rules of the communicators after these statements.
pub fn rules_of(items: &[Item]) -> [CommRule; 16]
    ensures { result ≡ rules_of items.now }
{
    [
        CommRule::World,
        first_split(items, 1),
        first_split(items, 2),
        first_split(items, 3),
        first_split(items, 4),
        first_split(items, 5),
        first_split(items, 6),
        first_split(items, 7),
        first_split(items, 8),
        first_split(items, 9),
        first_split(items, 10),
        first_split(items, 11),
        first_split(items, 12),
        first_split(items, 13),
        first_split(items, 14),
        first_split(items, 15),
    ]
}
