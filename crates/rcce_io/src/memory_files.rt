ghost use Rattle.std.specs.Prelude.{◌≡◌, ◌<◌, Some, None, length, map, OnOk, OnErr, IsTrue, IfSome, is_some, option_map};
ghost use Rattle.rcce_io.specs.Files.{Opens, Reads, contents_of};
ghost use Rattle.rcce_io.specs.MemoryFiles.{named_file, contents_at};

use crate::calls::CallCounter;
use crate::{Files, Got, Opened};
use std::alloc::{AllocError, Global};
use std::marker::Model;

/// Files in memory. A read gives at most `most` bytes. One call of `open` or `read` can be made to fail.
#[derive(Drop)]
pub struct MemFiles {
    alloc: Global,
    files: Vec<MemFile>,
    place: Option<Place>,
    most: usize,
    calls: CallCounter,
}

#[derive(Drop)]
struct MemFile {
    name: String,
    contents: Vec<u8>,
}

/// Where the open file is read next.
#[derive(Clone, Copy)]
struct Place {
    file: usize,
    at: usize,
}

impl Model for MemFiles {
    ghost use Rattle.rcce_io.specs.Memory.{FilesState};

    ghost Value = { FilesState };

    ghost use Rattle.std.specs.Prelude.{◌<◌};
    ghost use Rattle.std.specs.Option.{ForSome};
    ghost use Rattle.rcce_io.specs.MemoryFiles.{files_state_of, IsPlaceWithin};

    ghost view = { files_state_of };

    ghost invariant = { λ m. ForSome m.place (IsPlaceWithin m.files.items) × (0 < m.most) };
}

impl MemFiles {
    ghost use Rattle.rcce_io.specs.Memory.{no_files_state, with_file};

    /// Takes no memory yet: `add` does.
    pub fn new(alloc: Global) -> Self
        ensures { result ≡ no_files_state }
    {
        MemFiles {
            alloc,
            files: Vec::new(alloc),
            place: None,
            most: usize::MAX,
            calls: CallCounter::new(),
        }
    }

    pub fn has_file(&self, name: &str) -> bool
        ensures { result ≡ is_some (contents_of name.now self.now.files) }
    {
        place_of(&self.files, name).is_some()
    }

    pub fn add(&mut self, name: &str, contents: &[u8]) -> Result<(), AllocError>
        requires { contents_of name.now self.old.files ≡ None }
        ensures ok { OnOk result (self.new ≡ with_file name.now contents.now self.old) }
        ensures err { OnErr result (self.new ≡ self.old) }
    {
        let file = MemFile {
            name: String::from_str(self.alloc, name)?,
            contents: Vec::from_slice(self.alloc, contents)?,
        };
        self.files.push(file)?;
        Ok(())
    }

    /// Sets how many bytes a read gives at most, from now on.
    pub fn piece(&mut self, most: usize)
        requires { 0 < most }
        ensures { self.new ≡ record self.old { most = most } }
    {
        self.most = most;
    }

    /// Makes the call of this number fail, counted from 1 over all calls of `open` and `read`. The last
    /// number set counts.
    pub fn fail_at(&mut self, call: u64)
        ensures { self.new ≡ record self.old { calls = record self.old.calls { failing = Some call } } }
    {
        self.calls.fail_at(call);
    }

    /// How many calls of `open` and `read` were made, up to the largest value of u64.
    pub fn calls_made(&self) -> u64
        ensures { result ≡ self.now.calls.made }
    {
        self.calls.made()
    }
}

impl Files for MemFiles {
    ghost use Rattle.rcce_io.specs.Memory.{open_answer, after_open, read_answer, after_read, files_seen};

    ghost seen = { files_seen };

    fn open(&mut self, name: &str) -> Opened
        ensures opens { Opens name.now (files_seen self.old) (files_seen self.new) result }

        // Exactly the call of the number set fails.
        ensures answers { result ≡ open_answer self.old name.now }
        ensures state { self.new ≡ after_open self.old name.now }
    {
        self.place = None;
        let failed = self.calls.fails_next();
        self.calls.count(failed);
        if failed {
            return Opened::Failed;
        }
        match place_of(&self.files, name) {
            Some(file) => {
                self.place = Some(Place { file, at: 0 });
                Opened::Open
            }
            None => Opened::Absent,
        }
    }

    fn read(&mut self, buf: &mut [u8]) -> Got
        requires open { IsTrue (files_seen self.old).is_open }
        requires room { 0 < length buf.old }
        ensures reads { Reads (files_seen self.old) (files_seen self.new) buf.new result }

        // Exactly the call of the number set fails.
        ensures answers { result ≡ read_answer self.old (length buf.old) }
        ensures state { self.new ≡ after_read self.old (length buf.old) }
    {
        let failed = self.calls.fails_next();
        self.calls.count(failed);
        let Some(place) = self.place else {
            unreachable!()
        };
        if failed {
            return Got::Failed;
        }
        let rest = &self.files[place.file].contents[place.at..];
        let room = buf.len().min(self.most);
        let len = rest.len().min(room);
        if len == 0 {
            return Got::End;
        }
        buf[..len].copy_from_slice(&rest[..len]);
        self.place = Some(Place {
            file: place.file,
            at: place.at + len,
        });
        Got::Bytes(len)
    }
}

fn place_of(files: &[MemFile], name: &str) -> Option<usize>
    ensures within { IfSome result (λ file. file < length files.now) }
    ensures contents { option_map (contents_at files.now) result ≡ contents_of name.now (map named_file files.now) }
{
    files.iter().position(|file| file.name.as_str() == name)
}
