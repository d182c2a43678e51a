//! A law of the statuses.

ghost use Rattle.std.specs.Prelude.{◌≡◌, ◌≢◌};
ghost use Rattle.outcomes.specs.declared.status.Status.{Status};
ghost use Rattle.outcomes.specs.declared.status.Status.TheVariants.{Finished};
ghost use Rattle.trace_script.specs.Ends.{trace_status_number};
ghost use Rattle.trace_script.specs.declared.endings.TraceEnd.{TraceEnd};
ghost use Rattle.trace_script.specs.declared.endings.TraceEnd.TheVariants.{Ended, Refused};

/// By the number of its status a run says which end it came to: no two ends have one number. A run that finished has 0, one whose
/// event was refused has 7, and no other end has 7.
pub fn status_law()
    ensures apart { (one other : TraceEnd) → trace_status_number one ≡ trace_status_number other → one ≡ other }
    ensures finished { trace_status_number (Ended Finished) ≡ 0 }
    ensures refused { trace_status_number Refused ≡ 7 }
    ensures alone { (s : Status) → trace_status_number (Ended s) ≢ 7 }
{}
