ghost use Rattle.std.specs.Prelude.{map};
ghost use Rattle.rcce_io.specs.Sending.{Sends, joined_texts};

use crate::{Put, Sink, TextSource};

/// A sink did not take a text whole.
#[derive(Clone, Copy)]
pub struct WriteFault;

/// Writes the bytes until all are taken or a write fails.
pub fn write_all<S: Sink>(sink: &mut S, bytes: &[u8]) -> Result<(), WriteFault>
    ensures { Sends bytes.now (S.seen sink.old) (S.seen sink.new) result }
{
    let mut sent = 0;
    while sent < bytes.len() {
        match sink.write(&bytes[sent..]) {
            Put::Took(n) => sent += n,
            Put::Failed => return Err(WriteFault),
        }
    }
    Ok(())
}

/// Writes texts, one behind the other, until all are taken or a write fails.
pub fn write_texts<S: Sink, T: TextSource>(sink: &mut S, texts: &[T]) -> Result<(), WriteFault>
    ensures { Sends (joined_texts (map T.text texts.now)) (S.seen sink.old) (S.seen sink.new) result }
{
    for text in texts {
        text.write_to(sink)?;
    }
    Ok(())
}
