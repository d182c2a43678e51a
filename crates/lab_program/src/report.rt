//! The end of a lab, as it is written.

use lab_plain::{Said, Stopped};
use outcomes::Report;
use rcce_io::{Sink, TextSource, WriteFault, write_texts};

/// A lab that was run: what it printed, and why it stopped, if it did.
#[derive(Drop)]
pub struct Lab {
    pub said: Vec<Said>,
    pub stopped: Option<Stopped>,
}

impl Report for Lab {
    ghost use Rattle.lab_program.specs.Program.{lab_ran};

    ghost ran = { lab_ran };

    fn is_finished(&self) -> bool {
        self.stopped.is_none()
    }

    fn write_out<S: Sink>(&self, sink: &mut S) -> Result<(), WriteFault> {
        write_texts(sink, self.said.as_slice())
    }

    fn write_err<S: Sink>(&self, sink: &mut S) -> Result<(), WriteFault> {
        match &self.stopped {
            Some(stopped) => stopped.write_to(sink),
            None => Ok(()),
        }
    }
}
