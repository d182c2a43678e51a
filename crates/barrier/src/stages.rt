//! Where a barrier stands.

ghost use Rattle.std.specs.Prelude.{◌≡◌, ◌+◌, ◌<◌};
ghost use Rattle.barrier.specs.Stages.{after_flip, after_member_seen, after_release};

/// What a barrier does next.
#[derive(Clone, Copy)]
pub enum BarStage {
    /// It flips the own gather flag.
    Flip,
    /// The root has seen this many other members, and looks at the next one.
    Gather(u8),
    /// The root has released this many other members, and releases the next one.
    Release(u8),
    /// A member looks whether it is released.
    Await,
    /// The barrier is passed.
    Finished,
}

/// The stage after the flip.
pub(crate) fn stage_after_flip(size: u8, place: u8) -> BarStage
    ensures gives { result ≡ after_flip size place }
{
    if size == 1 {
        return BarStage::Finished;
    }
    if place == 0 {
        BarStage::Gather(0)
    } else {
        BarStage::Await
    }
}

/// The stage after one more member was seen.
pub(crate) fn stage_after_seen(size: u8, seen: u8) -> BarStage
    requires below { seen + 1 < size }
    ensures gives { result ≡ after_member_seen size seen }
{
    if size - seen == 2 {
        BarStage::Release(0)
    } else {
        BarStage::Gather(seen + 1)
    }
}

/// The stage after one more member was released.
pub(crate) fn stage_after_release(size: u8, released: u8) -> BarStage
    requires below { released + 1 < size }
    ensures gives { result ≡ after_release size released }
{
    if size - released == 2 {
        BarStage::Finished
    } else {
        BarStage::Release(released + 1)
    }
}
