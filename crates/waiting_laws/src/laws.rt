//! What vain looks tell, as laws: a function that does nothing and ensures them.

ghost use Rattle.std.specs.Prelude.{◌≡◌, ℕ, List, Some};
ghost use Rattle.scc_proto.specs.Ports.{Seat};
ghost use Rattle.scc_proto.specs.Stages.{Record};
ghost use Rattle.scc_proto.specs.Words.{Memory};
ghost use Rattle.put_get.specs.Cores.{Private};
ghost use Rattle.sync_flags.specs.Tries.{Aim};
ghost use Rattle.send_recv.specs.Ops.{RecvAt, SendAt, SlotAt};
ghost use Rattle.send_recv.specs.Receiving.{IsReceiving, aim_of_receive};
ghost use Rattle.send_recv.specs.Sending.{IsSending, aim_of_send};
ghost use Rattle.chip_run.specs.Wants.{Want};
ghost use Rattle.waiting_laws.specs.Looks.{LookFailed, SeatWaits};

/// A look that a send or a receive made in vain shows that its rank waits for the other rank.
pub fn failed_looks()
    ensures sends { (seat : Seat) (memory : Memory) (records : ℕ → Record) (rec : Record) (aim : Aim) (c : Private) (op : SendAt)
        (slot : SlotAt) (bytes : List ℕ)
        → LookFailed seat memory records rec aim → IsSending seat rec c op slot bytes
        → aim_of_send seat op slot ≡ Some aim
        → SeatWaits seat memory records (Want.Send op.to op.head) }
    ensures receives { (seat : Seat) (memory : Memory) (records : ℕ → Record) (rec : Record) (aim : Aim) (c : Private) (op : RecvAt)
        (bytes : List ℕ)
        → LookFailed seat memory records rec aim → IsReceiving seat rec c op bytes
        → aim_of_receive seat op ≡ Some aim
        → SeatWaits seat memory records (Want.Recv op.from) }
{}
