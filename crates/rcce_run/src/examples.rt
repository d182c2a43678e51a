//! A sweep in which no UE moves, so that the premise of its law is met.

ghost use Rattle.std.specs.Prelude.{◌≡◌, Some};
ghost use Rattle.rcce_run.specs.Examples.{three_lasts, three_message, three_records, three_script, three_setup, three_states, three_words};
ghost use Rattle.rcce_run.specs.Scripts.{IsSwept};
ghost use Rattle.rcce_run.specs.Sweep.{slots_by};

/// Three ranks wait at once: rank 0, which has nothing left, for its posted message to be taken; rank 1, which that message
/// stopped by its head, for nothing; and rank 2 in a barrier.
pub fn three_wait()
    ensures swept { IsSwept three_script three_setup three_words three_records three_states three_lasts }
    ensures full { slots_by three_setup three_records three_lasts 0 ≡ Some three_message }
{}
