ghost use Rattle.std.specs.Prelude.{◌≡◌};
ghost use Rattle.rcce_io.specs.Host.{nothing_open};

use crate::{Files, Got, Opened, Put, Sink};
use std::fs::File;
use std::io::{ErrorKind, Read, Write};
use std::marker::Model;
use std::rt::{Stderr, Stdout};

/// The files of the system, of which nothing is told.
#[derive(Drop)]
pub struct HostFiles {
    rt: HostRuntime,
    file: Option<File>,
    faults: u64,
}

impl Model for HostFiles {
    ghost use Rattle.std.specs.Prelude.{is_some};
    ghost use Rattle.rcce_io.specs.Host.{HostState};

    ghost Value = { HostState };

    ghost view = { λ h. record { is_open = is_some h.file; faults = h.faults } };
}

impl HostFiles {
    pub fn new(rt: HostRuntime) -> Self
        ensures { result ≡ nothing_open }
    {
        HostFiles {
            rt,
            file: None,
            faults: 0,
        }
    }
}

impl Files for HostFiles {
    ghost use Rattle.std.specs.Prelude.{None};

    ghost seen = { λ h. record { told = None; rest = None; is_open = h.is_open; faults = h.faults } };

    fn open(&mut self, name: &str) -> Opened {
        self.file = None;
        match File::open(&self.rt, name) {
            Ok(file) => {
                self.file = Some(file);
                Opened::Open
            }
            Err(error) if error.kind() == ErrorKind::NotFound => Opened::Absent,
            Err(_) => {
                self.faults = self.faults.saturating_add(1);
                Opened::Failed
            }
        }
    }

    fn read(&mut self, buf: &mut [u8]) -> Got {
        let Some(file) = &mut self.file else {
            unreachable!()
        };
        match file.read(buf) {
            Ok(0) => Got::End,
            Ok(len) => Got::Bytes(len),
            Err(_) => {
                self.faults = self.faults.saturating_add(1);
                Got::Failed
            }
        }
    }
}

/// The standard output or the standard error of the process, of which nothing is told.
#[derive(Drop)]
pub struct StdSink {
    stream: Stream,
    faults: u64,
}

#[derive(Drop)]
enum Stream {
    Out(Stdout),
    Err(Stderr),
}

impl Model for StdSink {
    ghost use Rattle.std.specs.Prelude.{ℕ};

    ghost Value = { ℕ };

    ghost view = { λ s. s.faults };
}

impl StdSink {
    pub fn out(rt: &HostRuntime) -> Self
        ensures { result ≡ 0 }
    {
        StdSink {
            stream: Stream::Out(rt.stdout()),
            faults: 0,
        }
    }

    pub fn err(rt: &HostRuntime) -> Self
        ensures { result ≡ 0 }
    {
        StdSink {
            stream: Stream::Err(rt.stderr()),
            faults: 0,
        }
    }
}

impl Sink for StdSink {
    ghost use Rattle.std.specs.Prelude.{None};

    ghost seen = { λ s. record { taken = None; faults = s } };

    fn write(&mut self, bytes: &[u8]) -> Put {
        let written = match &mut self.stream {
            Stream::Out(out) => out.write(bytes),
            Stream::Err(err) => err.write(bytes),
        };
        match written {
            Ok(len) if len > 0 => Put::Took(len),
            // A write that takes nothing is a fault too.
            _ => {
                self.faults = self.faults.saturating_add(1);
                Put::Failed
            }
        }
    }
}
