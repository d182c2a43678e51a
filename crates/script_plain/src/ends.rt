//! What a run leaves behind.

ghost use Rattle.std.specs.Prelude.{◌≡◌, ◌<◌, length, IfOk};
ghost use Rattle.script_plain.specs.Code.{IsNoneGoing};
ghost use Rattle.plain_meaning.specs.Ends.{all_finished, ends_of};

use crate::posts::Left;
use crate::ues::Ue;
use scc_base::Rank;
use script_machine::{PrintedItem, Prints, UeEnd};
use script_rules::Scripts;
use std::alloc::{AllocError, Global};
use std::marker::Model;

/// What a rank's run leaves behind.
#[derive(Drop)]
pub struct Rest {
    how: UeEnd,
    items: Prints,
    target: Option<Rank>,
}

impl Model for Rest {
    ghost use Rattle.plain_meaning.specs.Ends.{Ended};

    ghost Value = { Ended };

    ghost view = { λ r. record { end = r.how; printed = r.items.items; in_flight = r.target } };
}

/// What the run of a script leaves behind: no rank can take a step.
#[derive(Drop)]
pub struct End {
    ranks: Vec<Rest>,
}

impl Model for End {
    ghost use Rattle.std.specs.Prelude.{List};
    ghost use Rattle.plain_meaning.specs.Ends.{Ended};

    ghost Value = { List Ended };

    ghost view = { λ e. e.ranks.items };
}

impl Rest {
    ghost use Rattle.std.specs.Prelude.{◌≡◌, false};
    ghost use Rattle.plain_meaning.specs.Ends.{end_of_rank};
    ghost use Rattle.script_machine.specs.Local.{local_next};
    ghost use Rattle.script_machine.specs.Next.{is_going};

    /// What is left of a rank with this message in its slot.
    fn of(alloc: Global, ue: &mut Ue<'_>, slot: &Option<Left>) -> Rest
        requires { is_going (local_next ue.old) ≡ false }
        ensures { result ≡ end_of_rank slot.now ue.old }
    {
        let how = ue.end(slot);
        Rest {
            how,
            items: ue.take_items(alloc),
            target: match slot {
                Some(message) => Some(message.to()),
                None => None,
            },
        }
    }
}

/// What is left of ranks of which none stands at a statement of its own, with these messages in their slots.
pub fn end_all(alloc: Global, ues: &mut [Ue<'_>], slots: &[Option<Left>]) -> Result<End, AllocError>
    requires still { IsNoneGoing ues.old }
    requires slots { length ues.old ≡ length slots.now }
    ensures { IfOk result (λ end. end ≡ ends_of ues.old slots.now) }
{
    let mut ranks = Vec::new(alloc);
    for i in 0..ues.len() {
        ranks.push(Rest::of(alloc, &mut ues[i], &slots[i]))?;
    }
    Ok(End { ranks })
}

impl End {
    ghost use Rattle.std.specs.Prelude.{◌≡◌, ◌<◌, length, slice_get, Some};
    ghost use Rattle.plain_meaning.specs.Ends.{ended_at};

    /// How many ranks there are.
    pub fn nue(&self) -> usize
        ensures { result ≡ length self.now }
    {
        self.ranks.len()
    }

    /// How the run of a rank ended.
    pub fn ue(&self, rank: Rank) -> UeEnd
        requires { rank < length self.now }
        ensures { result ≡ (ended_at self.now rank).end }
    {
        let rest = &self.ranks[rank.number() as usize];
        rest.how.copy()
    }

    /// How many items a rank printed.
    pub fn items(&self, rank: Rank) -> usize
        requires { rank < length self.now }
        ensures { result ≡ length (ended_at self.now rank).printed }
    {
        let rest = &self.ranks[rank.number() as usize];
        rest.items.len()
    }

    /// An item that a rank printed, in their order.
    pub fn item(&self, rank: Rank, i: usize) -> PrintedItem<'_>
        requires known { rank < length self.now }
        requires within { i < length (ended_at self.now rank).printed }
        ensures { slice_get (ended_at self.now rank).printed i ≡ Some result }
    {
        let rest = &self.ranks[rank.number() as usize];
        rest.items.item(i)
    }

    /// The target of a rank's posted message that is not taken, if there is one.
    pub fn in_flight(&self, rank: Rank) -> Option<Rank>
        requires { rank < length self.now }
        ensures { result ≡ (ended_at self.now rank).in_flight }
    {
        let rest = &self.ranks[rank.number() as usize];
        rest.target
    }
}

/// Whether each rank of a script has finished.
pub fn have_finished(end: &End, script: &Scripts) -> bool
    requires { length end.now ≡ script.now.nue }
    ensures { result ≡ all_finished end.now }
{
    for number in 0..script.nue() {
        if !matches!(end.ue(Rank::of(number)), UeEnd::Finished) {
            return false;
        }
    }
    true
}
