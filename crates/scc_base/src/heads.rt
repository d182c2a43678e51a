//! The head of a message, and of a posted one.

use crate::kinds::Kind;
use crate::layouts::Layout;
use std::marker::Model;

/// What the first line of a message says of it: its kind, its communicator and its length in bytes.
/// A length is at most 65,536, and a plain message belongs to the world, communicator 0.
#[derive(Clone, Copy, PartialEq, Eq)]
pub struct Head {
    kind: Kind,
    comm: u8,
    len: u32,
}

impl Model for Head {
    ghost use Rattle.scc_base.specs.Heads.{MessageHead, IsHead, kind_number, kind_at, kind_at-kind_number};

    ghost Value = { MessageHead };

    ghost view = { λ h. record { kind = kind_number h.kind; comm = h.comm; len = h.len } };

    ghost invariant = { λ h. IsHead (record { kind = kind_number h.kind; comm = h.comm; len = h.len }) };

    ghost inverse = { λ v. record { kind = kind_at v.kind; comm = v.comm; len = v.len } };

    ghost inverse_ok = { λ h _. λ i. record { kind = kind_at-kind_number h.kind i; comm = h.comm; len = h.len } };
}

impl Head {
    ghost use Rattle.std.specs.Prelude.{◌≡◌, ◌≤◌, SomeIff};
    ghost use Rattle.scc_base.specs.Heads.{IsHead, kind_at, kind_number, kind_text, plain_head, most_message};

    /// The longest message, in bytes.
    pub const MOST: u32 = 65_536;

    pub fn new(kind: Kind, comm: u8, len: u32) -> Option<Head>
        ensures gives { SomeIff result
            (IsHead (record { kind = kind_number kind; comm = comm; len = len }))
            (record { kind = kind_number kind; comm = comm; len = len }) }
    {
        let fits = comm < 16 && len <= Head::MOST && (kind != Kind::Plain || comm == 0);
        if fits {
            Some(Head { kind, comm, len })
        } else {
            None
        }
    }

    /// The head of a plain message.
    pub fn plain(len: u32) -> Option<Head>
        ensures gives { SomeIff result (len ≤ most_message) (plain_head len) }
    {
        Head::new(Kind::Plain, 0, len)
    }

    pub fn kind(&self) -> Kind
        ensures gives { kind_number result ≡ self.now.kind }
        ensures valid { IsHead self.now }
    {
        self.kind
    }

    /// The name of the message's kind.
    pub fn kind_text(&self) -> &'static str
        ensures { result.now ≡ kind_text (kind_at self.now.kind) }
    {
        match self.kind {
            Kind::Plain => "plain",
            Kind::Bcast => "bcast",
            Kind::Reduce => "reduce",
            Kind::AllUp => "allup",
            Kind::AllDown => "alldown",
        }
    }

    pub fn comm(&self) -> u8
        ensures gives { result ≡ self.now.comm }
        ensures valid { IsHead self.now }
    {
        self.comm
    }

    pub fn len(&self) -> u32
        ensures gives { result ≡ self.now.len }
        ensures valid { IsHead self.now }
    {
        self.len
    }
}

/// The head of a message that is posted: a plain head with at most 3,584 bytes, so that the message is
/// one chunk in either layout.
#[derive(Clone, Copy, PartialEq, Eq)]
pub struct PostHead {
    len: u32,
}

impl Model for PostHead {
    ghost use Rattle.std.specs.Prelude.{◌≤◌};
    ghost use Rattle.scc_base.specs.Heads.{MessageHead, plain_head, most_post};

    ghost Value = { MessageHead };

    ghost view = { λ h. plain_head h.len };

    ghost invariant = { λ h. h.len ≤ most_post };

    ghost inverse = { λ v. record { len = v.len } };
}

impl PostHead {
    ghost use Rattle.std.specs.Prelude.{◌≡◌, ◌≤◌, SomeIff};
    ghost use Rattle.scc_base.specs.Heads.{IsPostHead, plain_head, most_post};

    /// The longest posted message, in bytes.
    pub const MOST: u32 = Layout::LINE_CHUNK;

    /// The head of a posted message of this length.
    pub fn plain(len: u32) -> Option<PostHead>
        ensures gives { SomeIff result (len ≤ most_post) (plain_head len) }
    {
        if len <= PostHead::MOST {
            Some(PostHead { len })
        } else {
            None
        }
    }

    /// This head, where a posted message may have it.
    pub fn new(head: Head) -> Option<PostHead>
        ensures gives { SomeIff result (IsPostHead head) head }
    {
        if head.kind() == Kind::Plain && head.comm() == 0 {
            PostHead::plain(head.len())
        } else {
            None
        }
    }

    /// The head, as one that any message may have.
    pub fn head(&self) -> Head
        ensures gives { result ≡ self.now }
        ensures valid { IsPostHead self.now }
    {
        Head {
            kind: Kind::Plain,
            comm: 0,
            len: self.len,
        }
    }

    pub fn len(&self) -> u32
        ensures gives { result ≡ self.now.len }
        ensures valid { IsPostHead self.now }
    {
        self.len
    }
}
