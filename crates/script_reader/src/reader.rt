//! The lines so far, and what one more line adds to them.

use crate::fault::{FAULT_TABLE, LineStop};
use arrayvec::ArrayVec;
use script_rules::{
    Effect, FaultKind, Item, MOST_OPEN, Name, Open, Run, Scripts, Stmt, Tally, Version, Who,
    effect_of, has_no_parent, innermost, is_new_split, is_stray, is_too_deep, is_too_long,
    is_unknown, no_tallies, note_item, note_repeat, reads, refuses_by, rules_of, tell_ends,
    turns_in, turns_too_often,
};
use std::alloc::{AllocError, Global};
use std::marker::Model;

/// How many names a file may have.
const MOST_NAMES: usize = 64;

/// Two registers of a statement.
#[derive(Clone, Copy)]
pub(crate) struct Pair {
    pub(crate) dst: u8,
    pub(crate) src: u8,
}

/// The statements, names and section of the lines so far, and what the reader keeps of the statements.
#[derive(Drop)]
pub(crate) struct Reader {
    version: Version,
    nue: u8,
    opening: bool,
    items: Vec<Item>,
    names: Vec<Name>,
    section: Option<Who>,
    run: Run,
    repeats: ArrayVec<Open, MOST_OPEN>,
    tallies: Vec<Tally>,
}

impl Model for Reader {
    ghost use Rattle.script_reader.specs.Progress.{ReadingSoFar};
    ghost use Rattle.script_reader.specs.Kept.{IsKept};

    ghost Value = { ReadingSoFar };

    ghost view = { λ r. record {
      version = r.version;
      nue = r.nue;
      opening = r.opening;
      items = r.items.items;
      names = r.names.items;
      section = r.section;
    } };

    ghost invariant = { λ r. IsKept r.version r.nue r.items.items r.names.items r.run r.repeats.items r.tallies.items };
}

impl Reader {
    ghost use Rattle.std.specs.Prelude.{◌≡◌, ◌+◌, ◌^◌, ◌<◌, ◌≤◌, ◌==◌, ◌&&◌, ◌++◌, ◌∷◌, [], false, IfOk, MatchResult, None, OnOk, Some, length};
    ghost use Rattle.script_rules.specs.Checks.{innermost, last_comm, open_of, refuses, some_below};
    ghost use Rattle.script_rules.specs.Effects.{effect_of};
    ghost use Rattle.script_reader.specs.Faults.{LineGives};
    ghost use Rattle.script_reader.specs.Progress.{section_or_fault, first_fault, has_fault, is_refused, with_known_name, open_section, past, place, register_of, start};
    ghost use Rattle.script_rules.specs.Settled.{HasCommsTo, IsNamed};
    ghost use Rattle.script_reader.specs.Reading.{script_of};
    ghost use Rattle.script_rules.specs.Script.{has_rank};
    ghost use Rattle.script_reader.specs.Kept.{IsUpTo, register_pair};
    ghost use Rattle.script_rules.specs.Tally.{IsAimed, IsMade};
    ghost use Rattle.script_rules.specs.Limits.{most_names};

    /// A reader before the first line.
    pub(crate) fn new(alloc: Global, version: Version, nue: u8) -> Result<Reader, AllocError>
        requires some { 1 ≤ nue }
        requires most { nue ≤ 48 }
        ensures { IfOk result (λ r. r ≡ start version nue) }
    {
        let tallies = no_tallies(alloc, nue)?;
        Ok(Reader {
            version,
            nue,
            opening: true,
            items: Vec::new(alloc),
            names: Vec::new(alloc),
            section: None,
            run: Run::new(nue, rules_of(&[])),
            repeats: ArrayVec::new(),
            tallies,
        })
    }

    /// The script of what was read.
    pub(crate) fn finish(self) -> Scripts
        requires { length self.items < 2 ^ 32 }
        ensures same { result ≡ script_of self }
        ensures low { HasCommsTo (last_comm self.version) result }
    {
        let Reader {
            version: _,
            nue,
            opening: _,
            mut items,
            names,
            section: _,
            run: _,
            repeats: _,
            tallies: _,
        } = self;
        tell_ends(&mut items);
        Scripts::new(nue, items, names)
    }

    pub(crate) fn version(&self) -> Version
        ensures { result ≡ self.now.version }
    {
        self.version
    }

    pub(crate) fn nue(&self) -> u8
        ensures same { result ≡ self.now.nue }
        ensures some { 1 ≤ result }
        ensures most { result ≤ 48 }
    {
        self.nue
    }

    /// Whether no line has had words yet.
    pub(crate) fn is_opening(&self) -> bool
        ensures { result ≡ self.now.opening }
    {
        self.opening
    }

    /// Records that a line has words.
    pub(crate) fn begin(&mut self)
        ensures { self.new ≡ record self.old { opening = false } }
    {
        self.opening = false;
    }

    /// Whether no repeat is open.
    pub(crate) fn is_closed(&self) -> bool
        ensures { result ≡ (length (open_of (past self.now)) == 0) }
    {
        self.repeats.is_empty()
    }

    /// The place of the innermost open repeat.
    pub(crate) fn innermost(&self) -> u32
        ensures { result ≡ innermost (open_of (past self.now)) }
    {
        innermost(self.repeats.as_slice())
    }

    /// Whether a check refuses the statement for this rank.
    fn refuses(&self, kind: FaultKind, effect: &Effect, rank: u8) -> bool
        requires { rank < self.now.nue }
        ensures { result ≡ refuses kind self.now.nue (past self.now) effect.now rank }
    {
        let turns = turns_in(self.repeats.as_slice());
        refuses_by(
            kind,
            &self.run,
            &self.tallies[rank as usize],
            turns,
            effect,
            rank,
        )
    }

    /// Whether a check refuses the statement for some of these ranks.
    fn is_refused_by(&self, who: &Who, kind: FaultKind, effect: &Effect) -> bool
        ensures { result ≡ some_below self.now.nue (λ rank. has_rank who.now rank
            && refuses kind self.now.nue (past self.now) effect.now rank) }
    {
        for rank in 0..self.nue {
            if who.has(rank) && self.refuses(kind, effect, rank) {
                return true;
            }
        }
        false
    }

    /// Whether a check refuses the statement for some rank of the section.
    fn is_refused(&self, kind: FaultKind, effect: &Effect) -> bool
        ensures { result ≡ is_refused kind self.now effect.now }
    {
        match &self.section {
            Some(who) => self.is_refused_by(who, kind, effect),
            None => false,
        }
    }

    /// Whether the statement has the fault after the lines so far. Ranks are checked only if the statement has what the check
    /// is about.
    fn has_fault(&self, effect: &Effect, kind: FaultKind) -> bool
        ensures { result ≡ has_fault self.now effect.now kind }
    {
        let repeats = self.repeats.as_slice();
        match kind {
            FaultKind::NotText
            | FaultKind::UnknownStatement
            | FaultKind::WrongCount
            | FaultKind::BadNumber
            | FaultKind::BadHex
            | FaultKind::BadName
            | FaultKind::UnclosedRepeat => false,
            FaultKind::RankRange => effect.root.is_some() && self.is_refused(kind, effect),
            FaultKind::SelfMessage => effect.peer.is_some() && self.is_refused(kind, effect),
            FaultKind::Unset => reads(effect.uses) && self.is_refused(kind, effect),
            FaultKind::Shape => {
                (reads(effect.uses) || effect.sets.is_some()) && self.is_refused(kind, effect)
            }
            FaultKind::UnknownComm => is_unknown(self.version, &self.run, effect.group),
            FaultKind::NotSplit => {
                has_no_parent(&self.run, effect.group)
                    || (effect.group.needed() != 0 && self.is_refused(kind, effect))
            }
            FaultKind::NoSection => self.section.is_none(),
            FaultKind::StrayEnd => is_stray(repeats, effect.nesting),
            FaultKind::TooDeep => is_too_deep(repeats, effect.nesting),
            FaultKind::TooManyOps => {
                turns_too_often(turns_in(repeats), effect.nesting) || self.is_refused(kind, effect)
            }
            FaultKind::TooLong => is_too_long(effect) || self.is_refused(kind, effect),
            FaultKind::TooManyNames => self.names.len() > MOST_NAMES,
        }
    }

    /// The first fault of the statement in the order of the fault table.
    fn first_fault(&self, effect: &Effect) -> Option<FaultKind>
        ensures { result ≡ first_fault self.now effect.now }
    {
        for kind in FAULT_TABLE {
            if self.has_fault(effect, kind) {
                return Some(kind);
            }
        }
        None
    }

    /// The section that a statement belongs to, or its first fault.
    fn checked(&self, effect: &Effect) -> Result<Who, FaultKind>
        ensures same { result ≡ section_or_fault self.now effect.now }
        ensures passed { OnOk result (first_fault self.now effect.now ≡ None) }
        ensures opened { IfOk result (λ who. self.now.section ≡ Some who) }
    {
        match self.first_fault(effect) {
            Some(kind) => Err(kind),
            None => match &self.section {
                Some(who) => Ok(who.copy()),
                None => Err(FaultKind::NoSection),
            },
        }
    }

    /// The number of a register: the place of its name, which is added if it is new.
    pub(crate) fn register(&mut self, name: Name) -> Result<u8, AllocError>
        requires { length self.old.names ≤ most_names + 1 }
        ensures gives { IfOk result (λ reg. reg ≡ register_of self.old.names name) }
        ensures named { OnOk result (self.new ≡ with_known_name self.old name) }
        ensures within { IfOk result (λ reg. reg < length self.new.names) }
        ensures kept { OnOk result (length self.old.names ≤ length self.new.names) }
        ensures more { OnOk result (length self.new.names ≤ length self.old.names + 1) }
    {
        let place = place_of(&self.names, &name);
        if place == self.names.len() {
            self.names.push(name)?;
        }
        Ok(place as u8)
    }

    /// The numbers of two registers, of which `dst` is named first.
    pub(crate) fn registers(&mut self, dst: Name, src: Name) -> Result<Pair, AllocError>
        requires { length self.old.names ≤ most_names }
        ensures gives { IfOk result (λ pair. pair ≡ register_pair self.old dst src) }
        ensures dst { IfOk result (λ pair. pair.dst < length self.new.names) }
        ensures src { IfOk result (λ pair. pair.src < length self.new.names) }
        ensures named { OnOk result (self.new ≡ with_known_name (with_known_name self.old dst) src) }
    {
        let dst = self.register(dst)?;
        let src = self.register(src)?;
        Ok(Pair { dst, src })
    }

    /// Adds an item whose statement has this effect.
    fn add_item(&mut self, item: Item, effect: &Effect) -> Result<(), AllocError>
        requires meant { effect.now ≡ effect_of item.stmt }
        requires made { IsMade effect.now }
        requires named { IsNamed (length self.old.names) effect.now }
        requires aimed { IsAimed self.old.nue effect.now }
        requires passed { first_fault self.old effect.now ≡ None }
        requires opened { self.old.section ≡ Some item.who }
        requires counted { length self.old.items < item.line }
        ensures { OnOk result (self.new ≡ record self.old { items = self.old.items ++ item ∷ [] }) }
    {
        let turns = turns_in(self.repeats.as_slice());
        let place = self.items.len();
        let is_split = is_new_split(&self.run, effect.group);
        self.items.push(item)?;
        let last = &self.items[place];
        note_item(&mut self.tallies, &self.run, turns, &last.who, effect);
        note_repeat(&mut self.repeats, effect.nesting, place as u32);
        if is_split {
            self.run = Run::new(self.nue, rules_of(self.items.as_slice()));
        }
        Ok(())
    }

    /// Adds a statement, unless it has a fault.
    pub(crate) fn place(&mut self, line: u32, stmt: Stmt) -> Result<(), LineStop>
        requires made { IsMade (effect_of stmt) }
        requires named { IsNamed (length self.old.names) (effect_of stmt) }
        requires aimed { IsAimed self.old.nue (effect_of stmt) }
        requires counted { length self.old.items < line }
        ensures gives { LineGives (λ _. self.new) result (place line self.old stmt) }
        ensures kept { OnOk result (IsUpTo self.old.version line self.new) }
    {
        let effect = effect_of(&stmt);
        let who = self.checked(&effect)?;
        self.add_item(Item { line, who, stmt }, &effect)?;
        Ok(())
    }

    /// Starts a section of these ranks.
    pub(crate) fn open_section(&mut self, who: Who) -> Result<(), FaultKind>
        ensures { MatchResult result (λ _. open_section self.old who ≡ Ok self.new) (λ kind. open_section self.old who ≡ Err kind) }
    {
        if !self.is_closed() {
            return Err(FaultKind::UnclosedRepeat);
        }
        self.section = Some(who);
        Ok(())
    }
}

ghost use Rattle.std.specs.Prelude.{◌≡◌, ◌≤◌, length};
ghost use Rattle.std.specs.List.{position_or_len};
ghost use Rattle.std.specs.Str.{bytes_eq};

/// The place of a name among others, or their number if it is not among them.
fn place_of(names: &[Name], name: &Name) -> usize
    ensures place { result ≡ position_or_len (λ other. bytes_eq other name.now) names.now }
    ensures within { result ≤ length names.now }
{
    names
        .iter()
        .position(|other| other.as_str() == name.as_str())
        .unwrap_or(names.len())
}
