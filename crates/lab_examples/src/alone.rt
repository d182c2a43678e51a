//! One core alone: its meaning, compared with shared words that nobody caches.

ghost use Rattle.lab_examples.specs.Alone.{LoneLaw};

/// A core that flushes each write at once, puts, gets, reads and drops its copies behaves as if it had no cache and no buffer. It reads the
/// shared words as they are. The law fails if a write waits across a read (`a_core_goes_back`). `lab_run::laws::core_calls_law` states that
/// its calls are those of put and get's core.
pub fn a_core_alone_answers_the_shared_words()
    ensures law { LoneLaw }
{}
