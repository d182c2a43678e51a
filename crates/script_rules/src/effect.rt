//! What a statement needs and does, defined once. Each check of the grammar and each count reads it.

ghost use Rattle.std.specs.Prelude.{◌≡◌};
ghost use Rattle.script_rules.specs.Effects.{effect_of, fit_of, parent_of};

use crate::script::{Form, OwnStmt, Peer, Stmt};
use groups::{Coll, Ty};
use scc_base::CommRule;

/// The communicator that a statement names.
#[derive(Clone, Copy)]
pub enum Group {
    /// None, so the statement needs only the world.
    World,
    Of(u8),
    /// The statement splits this one by the rule, so it needs the groups of the rule's parent.
    Split(u8, CommRule),
}

/// The ranks of the section to which a part of a statement applies: all of them, the root of its collective call, or all except
/// the root.
#[derive(Clone, Copy)]
pub enum At {
    All,
    Root,
    Others,
}

/// What the length of a register must be.
#[derive(Clone, Copy)]
pub enum Fit {
    Any,
    /// A multiple of the type's width.
    Whole(Ty),
    /// This many bytes.
    Long(u32),
    /// The length of another register.
    Like(u8),
}

/// A register that a statement reads.
#[derive(Clone, Copy)]
pub struct Use {
    pub reg: u8,
    pub at: At,
    pub fit: Fit,
}

/// The registers that a statement reads.
#[derive(Clone, Copy)]
pub enum Uses {
    Nothing,
    One(Use),
    Two(Use, Use),
}

/// The length that a statement gives a register.
#[derive(Clone, Copy)]
pub enum Size {
    Bytes(u64),
    /// The length of a register that it reads.
    Same(u8),
}

/// A register that a statement sets.
#[derive(Clone, Copy)]
pub struct Target {
    pub reg: u8,
    pub at: At,
    pub size: Size,
}

/// How many operations one pass of a statement costs.
#[derive(Clone, Copy)]
pub enum Cost {
    Free,
    One,
    /// As many as the collective call has steps at the rank. A broadcast has its length here; the other calls have length 0,
    /// since their messages are as long as their source.
    Steps(Coll),
}

/// Whether a statement opens or closes a repeat.
#[derive(Clone, Copy)]
pub enum Nesting {
    /// It opens a repeat of this many passes.
    Opens(u32),
    /// It closes the innermost repeat, which is the item at this place.
    Closes(u32),
    Stays,
}

/// What a statement needs and does.
#[derive(Clone, Copy)]
pub struct Effect {
    /// The other rank of its message.
    pub peer: Option<Peer>,
    pub group: Group,
    /// The root of its collective call, as a place in the group.
    pub root: Option<u8>,
    pub uses: Uses,
    pub sets: Option<Target>,
    pub cost: Cost,
    /// The register that it posts.
    pub posts: Option<u8>,
    /// The register that it prints.
    pub prints: Option<u8>,
    pub nesting: Nesting,
}

/// The effect of a statement that is one operation and has no other effect.
const PLAIN: Effect = Effect {
    peer: None,
    group: Group::World,
    root: None,
    uses: Uses::Nothing,
    sets: None,
    cost: Cost::One,
    posts: None,
    prints: None,
    nesting: Nesting::Stays,
};

impl Use {
    ghost use Rattle.std.specs.Prelude.{◌≡◌};
    ghost use Rattle.script_rules.specs.Effects.{use_all};

    /// A use at each rank of the section.
    fn all(reg: u8, fit: Fit) -> Use
        ensures { result ≡ use_all reg fit }
    {
        let at = At::All;
        Use { reg, at, fit }
    }
}

impl Target {
    ghost use Rattle.std.specs.Prelude.{◌≡◌, Some};
    ghost use Rattle.script_rules.specs.Effects.{target_of};

    fn of(reg: u8, at: At, size: Size) -> Option<Target>
        ensures { result ≡ target_of reg at size }
    {
        Some(Target { reg, at, size })
    }
}

/// What a print requires of its register's length.
fn fit_of(form: Form) -> Fit
    ensures { result ≡ fit_of form }
{
    match form {
        Form::Hex => Fit::Any,
        Form::Decimal(ty) => Fit::Whole(ty),
    }
}

impl OwnStmt {
    ghost use Rattle.std.specs.Prelude.{◌≡◌};
    ghost use Rattle.script_rules.specs.Effects.{own_prints, own_uses};

    /// The registers that it reads.
    #[inline(always)]
    fn uses(self) -> Uses
        ensures { result ≡ own_uses self }
    {
        match self {
            OwnStmt::Apply { ty, dst, src, .. } => Uses::Two(
                Use::all(dst, Fit::Like(src)),
                Use::all(src, Fit::Whole(ty)),
            ),
            OwnStmt::Print { reg, form } => Uses::One(Use::all(reg, fit_of(form))),
        }
    }

    /// The register that it prints.
    #[inline(always)]
    fn prints(self) -> Option<u8>
        ensures { result ≡ own_prints self }
    {
        match self {
            OwnStmt::Apply { .. } => None,
            OwnStmt::Print { reg, .. } => Some(reg),
        }
    }
}

/// The communicator that a rule splits.
pub fn parent_of(rule: CommRule) -> u8
    ensures { result ≡ parent_of rule }
{
    match rule {
        CommRule::Absent | CommRule::World => 0,
        CommRule::Mod { parent, .. } | CommRule::Div { parent, .. } => parent,
    }
}

impl Effect {
    ghost use Rattle.std.specs.Prelude.{◌≡◌, Some};
    ghost use Rattle.script_rules.specs.Effects.{allreduce_effect, effect_of, plain_effect, reduce_effect, target_of, use_all};
    ghost use Rattle.script_rules.specs.declared.effect.At.TheVariants as at;
    ghost use Rattle.script_rules.specs.declared.effect.Fit.TheVariants as fit;
    ghost use Rattle.script_rules.specs.declared.effect.Size.TheVariants as size;
    ghost use Rattle.script_rules.specs.declared.effect.Uses.TheVariants as uses;
    ghost use Rattle.script_rules.specs.declared.script.Stmt.TheVariants as stmt;

    /// The effect of a statement which sets a register of this length at each rank.
    #[inline(always)]
    fn of_target(reg: u8, len: u64) -> Effect
        ensures { result ≡ record plain_effect { sets = target_of reg at.All (size.Bytes len) } }
    {
        let sets = Target::of(reg, At::All, Size::Bytes(len));
        Effect { sets, ..PLAIN }
    }

    /// The effect of a local statement.
    #[inline(always)]
    fn of_own(own: OwnStmt) -> Effect
        ensures { result ≡ effect_of (stmt.Own own) }
    {
        let uses = own.uses();
        let prints = own.prints();
        Effect {
            uses,
            prints,
            ..PLAIN
        }
    }

    /// The effect of a send or a post; a post also posts the register.
    #[inline(always)]
    fn of_send(peer: Peer, reg: u8, posts: Option<u8>) -> Effect
        ensures { result ≡ record plain_effect { peer = Some peer; uses = uses.One (use_all reg fit.Any); posts = posts } }
    {
        let peer = Some(peer);
        let uses = Uses::One(Use::all(reg, Fit::Any));
        Effect {
            peer,
            uses,
            posts,
            ..PLAIN
        }
    }

    /// The effect of a receive.
    #[inline(always)]
    fn of_receive(peer: Peer, reg: u8, len: u32) -> Effect
        ensures { result ≡ effect_of (stmt.Recv peer reg len) }
    {
        let peer = Some(peer);
        let sets = Target::of(reg, At::All, Size::Bytes(len as u64));
        Effect {
            peer,
            sets,
            ..PLAIN
        }
    }

    /// The effect of a broadcast.
    #[inline(always)]
    fn of_broadcast(comm: u8, root: u8, reg: u8, len: u32) -> Effect
        ensures { result ≡ effect_of (stmt.Bcast comm root reg len) }
    {
        let at = At::Root;
        let fit = Fit::Long(len);
        Effect {
            group: Group::Of(comm),
            root: Some(root),
            uses: Uses::One(Use { reg, at, fit }),
            sets: Target::of(reg, At::Others, Size::Bytes(len as u64)),
            cost: Cost::Steps(Coll::Bcast { comm, root, len }),
            ..PLAIN
        }
    }

    /// The effect of a reduce.
    #[inline(always)]
    fn of_reduce(comm: u8, root: u8, ty: Ty, dst: u8, src: u8) -> Effect
        ensures { result ≡ reduce_effect comm root ty dst src }
    {
        let len = 0;
        Effect {
            group: Group::Of(comm),
            root: Some(root),
            uses: Uses::One(Use::all(src, Fit::Whole(ty))),
            sets: Target::of(dst, At::Root, Size::Same(src)),
            cost: Cost::Steps(Coll::Reduce { comm, root, len }),
            ..PLAIN
        }
    }

    /// The effect of an allreduce.
    #[inline(always)]
    fn of_allreduce(comm: u8, ty: Ty, dst: u8, src: u8) -> Effect
        ensures { result ≡ allreduce_effect comm ty dst src }
    {
        let len = 0;
        Effect {
            group: Group::Of(comm),
            uses: Uses::One(Use::all(src, Fit::Whole(ty))),
            sets: Target::of(dst, At::All, Size::Same(src)),
            cost: Cost::Steps(Coll::Allreduce { comm, len }),
            ..PLAIN
        }
    }

    /// The effect of a statement that needs these groups and nothing else.
    #[inline(always)]
    fn of_group(group: Group) -> Effect
        ensures { result ≡ record plain_effect { group = group } }
    {
        Effect { group, ..PLAIN }
    }

    /// The effect of a statement which opens or closes a repeat.
    #[inline(always)]
    fn of_nesting(cost: Cost, nesting: Nesting) -> Effect
        ensures { result ≡ record plain_effect { cost = cost; nesting = nesting } }
    {
        Effect {
            cost,
            nesting,
            ..PLAIN
        }
    }
}

/// What a statement needs and does.
#[inline(always)]
pub fn effect_of(stmt: &Stmt) -> Effect
    ensures { result ≡ effect_of stmt.now }
{
    match stmt {
        Stmt::Bytes { reg, bytes } => Effect::of_target(*reg, bytes.as_slice().len() as u64),
        Stmt::Fill { reg, len, .. } => Effect::of_target(*reg, *len as u64),
        Stmt::RankOf { reg, ty } => Effect::of_target(*reg, ty.width() as u64),
        Stmt::Own(own) => Effect::of_own(*own),
        Stmt::Send { peer, reg } => Effect::of_send(*peer, *reg, None),
        Stmt::Post { peer, reg } => Effect::of_send(*peer, *reg, Some(*reg)),
        Stmt::Recv { peer, reg, len } => Effect::of_receive(*peer, *reg, *len),
        Stmt::Barrier { comm } => Effect::of_group(Group::Of(*comm)),
        Stmt::Split { comm, rule } => Effect::of_group(Group::Split(*comm, *rule)),
        Stmt::Bcast {
            comm,
            root,
            reg,
            len,
        } => Effect::of_broadcast(*comm, *root, *reg, *len),
        Stmt::Reduce {
            comm,
            root,
            ty,
            dst,
            src,
            ..
        } => Effect::of_reduce(*comm, *root, *ty, *dst, *src),
        Stmt::Allreduce {
            comm,
            ty,
            dst,
            src,
            ..
        } => Effect::of_allreduce(*comm, *ty, *dst, *src),
        Stmt::Repeat { times, .. } => Effect::of_nesting(Cost::Free, Nesting::Opens(*times)),
        Stmt::End { start } => Effect::of_nesting(Cost::One, Nesting::Closes(*start)),
    }
}

impl Group {
    ghost use Rattle.std.specs.Prelude.{◌≡◌};
    ghost use Rattle.script_rules.specs.Effects.{comm_needed, split_rule};

    /// The communicator whose groups a statement needs, or the world if it needs none.
    pub fn needed(self) -> u8
        ensures { result ≡ comm_needed self }
    {
        match self {
            Group::World => 0,
            Group::Of(comm) => comm,
            Group::Split(_, rule) => parent_of(rule),
        }
    }

    /// The rule by which a statement splits communicator `comm`, or no rule if it does not split it.
    pub(crate) fn split_rule(self, comm: u8) -> CommRule
        ensures { result ≡ split_rule self comm }
    {
        match self {
            Group::World | Group::Of(_) => CommRule::Absent,
            Group::Split(split, rule) => {
                if split == comm {
                    rule
                } else {
                    CommRule::Absent
                }
            }
        }
    }
}
