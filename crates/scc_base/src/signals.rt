//! The two signals of a message.

/// What the two ranks of a message tell each other by flags.
#[derive(Clone, Copy, PartialEq, Eq)]
pub enum Signal {
    /// A chunk is there. The sender raises it at the receiver's core; the receiver looks at it and lowers it.
    Sent,
    /// The chunk was taken. The receiver raises it at the sender's core; the sender looks at it and lowers it.
    Ready,
}

impl Signal {
    ghost use Rattle.std.specs.Prelude.{◌≡◌, ◌<◌, ◌≤◌};
    ghost use Rattle.scc_base.specs.Layouts.{first_signal, signal_word};

    // The line of the first of its flags, where each fills a line.
    #[inline]
    pub(crate) fn first_line(self) -> u8
        ensures gives { result ≡ first_signal self }
        ensures low { result ≤ 49 }
    {
        match self {
            Signal::Sent => 1,
            Signal::Ready => 49,
        }
    }

    // The word of line 1 that has its flags as bits.
    #[inline]
    pub(crate) fn word(self) -> u8
        ensures gives { result ≡ signal_word self }
        ensures below { result < 4 }
    {
        match self {
            Signal::Sent => 0,
            Signal::Ready => 1,
        }
    }
}
