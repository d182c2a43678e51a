//! Laws about a lab's core. Each is a function without a body that ensures its law.

ghost use Rattle.lab_run.specs.CoreCalls.{CoreCallsLaw};
ghost use Rattle.lab_run.specs.RegisterCalls.{RegisterCallsLaw};

/// The core of a lab is put and get's core. What a call of that core does by its relation, the lab's function does, and the accesses that a
/// lab prints for it are the events of the call.
pub fn core_calls_law()
    ensures { CoreCallsLaw }
{}

/// The registers of a lab are those of tas_lock: what `try_acquire` and `release` do by their relations is what a take and a free of a lab
/// do.
pub fn register_calls_law()
    ensures { RegisterCallsLaw }
{}
