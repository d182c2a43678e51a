//! The entry that an evictor names leaves the cache, and no other; and the text of a rejected range.

ghost use Rattle.std.specs.Prelude.{◌≡◌, [], None, if◌then◌else◌};

use crate::fixtures::{Meeting, has_text, shows};
use line_cache::Evict;
use put_get::{Core, RangeFault};
use scc_base::{CoreId, Place};
use scc_ports::CountingPort;
use scc_proto::Port;
use std::test::Fail;

#[test]
fn the_text_of_the_fault(rt: HostRuntime) -> Result<(), Fail> {
    let fault = RangeFault { asked: 3, len: 2 };
    has_text(rt.alloc(), &fault, "asked 3 lines of a buffer of 2")
}

/// The evictor that names the middle one of three entries, once.
#[derive(Drop)]
struct MiddleOnce {
    done: bool,
}

impl Evict for MiddleOnce {
    ghost count = { λ e. if e.done then 1 else 0 };

    ghost asked = { λ _. None };

    ghost answers = { λ _. [] };

    fn drop_one(&mut self, held: usize) -> Option<usize> {
        if held != 3 || self.done {
            return None;
        }
        self.done = true;
        Some(1)
    }
}

/// How many loads a read of a line's first word made.
fn loads_for<V: Evict, P: Port>(core: &mut Core<V>, port: &mut CountingPort<P>, line: u8) -> u64
    requires { core.old.out ≡ None }
    ensures { core.new.out ≡ None }
{
    let before = port.loads();
    core.word_read(port, Place::new(CoreId::of(0), line, 0));
    port.loads().saturating_sub(before)
}

/// A rank reads three lines, the middle one leaves its cache, and the rank reads them again.
struct MiddleLine;

impl Meeting for MiddleLine {
    fn holds<P: Port, Q: Port>(first: &mut CountingPort<P>, _second: &mut CountingPort<Q>) -> bool {
        let mut core = Core::new(MiddleOnce { done: false });
        loads_for(&mut core, first, 225) == 4
            && loads_for(&mut core, first, 226) == 4
            && loads_for(&mut core, first, 227) == 4
            && loads_for(&mut core, first, 225) == 0
            && loads_for(&mut core, first, 227) == 0
            && loads_for(&mut core, first, 226) == 4
            && loads_for(&mut core, first, 226) == 0
    }
}

#[test]
fn the_named_entry_leaves_and_no_other(rt: HostRuntime) -> Result<(), Fail> {
    shows::<MiddleLine>(rt.alloc())
}
