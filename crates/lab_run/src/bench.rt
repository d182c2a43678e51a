//! The chip of a lab, and its cores.

use crate::evictor::Named;
use chip_memory::TurnChip;
use lab_plain::Said;
use put_get::Core;

/// The chip of a lab, its cores, which of them has each register, and what was printed.
#[derive(Drop)]
pub(crate) struct Bench {
    pub(crate) chip: TurnChip,
    pub(crate) cores: Vec<Core<Named>>,
    pub(crate) holders: [Option<u8>; 48],
    pub(crate) said: Vec<Said>,
}
