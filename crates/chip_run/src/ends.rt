//! How a run ends.

/// How a run ended.
#[derive(Clone, Copy)]
pub enum RunEnd {
    /// Every rank has finished.
    Finished,
    /// Some rank has not, and no turn of any rank would change that.
    Stuck,
}
