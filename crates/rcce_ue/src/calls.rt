//! The call at which a rank stands.

ghost use Rattle.std.specs.Prelude.{◌≡◌};
ghost use Rattle.rcce_ue.specs.Ues.{open_for};

use crate::receiving::OpenReceive;
use barrier::BarOp;
use scc_base::Call;
use send_recv::SendOp;

/// The call at which a rank stands, as far as it has come.
#[derive(Drop)]
pub enum Open {
    /// None: a statement of its own comes next, or nothing.
    Nothing,
    /// A send or a post.
    Sending(SendOp),
    /// A receive.
    Receiving(OpenReceive),
    /// A barrier.
    Meeting(BarOp),
}

/// A call of which nothing is done yet.
pub(crate) fn begin(call: &Option<Call>) -> Open
    ensures { result ≡ open_for call.now }
{
    match call {
        None => Open::Nothing,
        Some(Call::Send { to, head }) => Open::Sending(SendOp::new(*to, *head)),
        Some(Call::Post { to, head }) => Open::Sending(SendOp::post(*to, *head)),
        Some(Call::Recv { from, head }) => Open::Receiving(OpenReceive::new(*from, *head)),
        Some(Call::Bar { comm }) => Open::Meeting(BarOp::new(*comm)),
    }
}
