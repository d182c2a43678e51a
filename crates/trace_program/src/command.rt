//! The words after the program's name.

ghost use Rattle.std.specs.Prelude.{◌≡◌, map, option_map, string_bytes};
ghost use Rattle.trace_program.specs.Jobs.{job_view};
ghost use Rattle.trace_program.specs.Program.{command_at, trace_command};

use outcomes::is_option;

/// A trace, by its file's name, and whether its calls are asked for.
#[derive(Clone, Copy)]
pub struct TraceJob<'a> {
    pub asked: bool,
    pub file: &'a str,
}

fn job_at(asked: bool, file: &str) -> Option<TraceJob<'_>>
    ensures { option_map job_view result ≡ command_at asked file.now }
{
    if is_option(file) {
        None
    } else {
        Some(TraceJob { asked, file })
    }
}

/// The trace that the words name: `TRACE` or `-calls TRACE`. No memory is taken.
pub(crate) fn job_of(words: &[String]) -> Option<TraceJob<'_>>
    ensures { option_map job_view result ≡ trace_command (map string_bytes words.now) }
{
    match words {
        [file] => job_at(false, file.as_str()),
        [calls, file] if calls.as_str() == "-calls" => job_at(true, file.as_str()),
        _ => None,
    }
}
