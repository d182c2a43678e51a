//! Collective calls, and the steps that they are made of.

use scc_base::{CommRule, Head, Rank, Setup};

/// A collective call of a rank, without its registers (RCCE specification 2.0: RCCE_bcast, RCCE_reduce and
/// RCCE_allreduce). A root is counted inside its group, and `len` is the length of the register in bytes.
#[derive(Clone, Copy)]
pub enum Coll {
    /// The root's bytes come to each member.
    Bcast { comm: u8, root: u8, len: u32 },
    /// The fold of all members' bytes comes to the root.
    Reduce { comm: u8, root: u8, len: u32 },
    /// The fold of all members' bytes comes to each member.
    Allreduce { comm: u8, len: u32 },
}

/// A step of a collective call, over two work buffers of the unit of execution: the accumulator and the
/// buffer of received bytes (this project's profile).
#[derive(Drop, PartialEq, Eq)]
pub enum Step {
    /// The source register's bytes go into the accumulator.
    Begin,
    /// A send of the accumulator where a `Begin` came before it, and else of the source register.
    Send { to: Rank, head: Head },
    /// A receive into the buffer of received bytes.
    Recv { from: Rank, head: Head },
    /// The received bytes are folded into the accumulator.
    Fold,
    /// The received bytes go into the destination register.
    Accept,
    /// The accumulator goes into the destination register.
    Finish,
}

impl Coll {
    ghost use Rattle.std.specs.Prelude.{◌≡◌, ◌↔◌, IsTrue};
    ghost use Rattle.groups.specs.Collectives.{IsCallable, comm_of, len_of, root_place};

    /// Whether a rank of a run may make this call: what `steps` and `step` ask for.
    pub fn is_callable(self, setup: &Setup, r: Rank) -> bool
        ensures tells { IsTrue result ↔ IsCallable setup.now r self }
    {
        let comm = self.comm();
        if comm >= 16 || self.len() > Head::MOST || r.number() >= setup.nue() {
            return false;
        }
        if setup.rule(comm) == CommRule::Absent {
            return false;
        }
        match self {
            Coll::Bcast { root, .. } | Coll::Reduce { root, .. } => root
                < setup.group_size(comm, r),
            Coll::Allreduce { .. } => true,
        }
    }

    /// The communicator of the call.
    pub(crate) fn comm(self) -> u8
        ensures gives { result ≡ comm_of self }
    {
        match self {
            Coll::Bcast { comm, .. } | Coll::Reduce { comm, .. } | Coll::Allreduce { comm, .. } =>
                comm,
        }
    }

    /// The length of the register, in bytes.
    pub(crate) fn len(self) -> u32
        ensures gives { result ≡ len_of self }
    {
        match self {
            Coll::Bcast { len, .. } | Coll::Reduce { len, .. } | Coll::Allreduce { len, .. } => len,
        }
    }

    /// The place of the member that the others turn to: the root, and member 0 where all get the result.
    pub(crate) fn root(self) -> u8
        ensures gives { result ≡ root_place self }
    {
        match self {
            Coll::Bcast { root, .. } | Coll::Reduce { root, .. } => root,
            Coll::Allreduce { .. } => 0,
        }
    }
}
