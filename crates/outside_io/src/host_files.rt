// The real files, and standard input.
ghost use Rattle.std.specs.Prelude.{◌≡◌, None};

use crate::fault_count::FaultCount;
use crate::files::{Files, OutFault};
use std::io::{Input, Read};
use std::{fs, rt};

#[derive(Drop)]
enum Source<R: rt::Files + Input> {
    Closed,
    Standard(R::Reader),
    Named(R::File),
}

/// The real files by name, and standard input as `-`. Nothing is told of what they hold.
#[derive(Drop)]
pub struct HostFiles<'a, R: rt::Files + Input> {
    rt: &'a R,
    source: Source<R>,
    taken: u64,
    faults: FaultCount,
}

impl<'a, R: rt::Files + Input> HostFiles<'a, R> {
    /// No file is open yet: nothing is left to read.
    pub fn new(rt: &'a R) -> HostFiles<'a, R>
        ensures { (⟦<HostFiles<'a, R> as Files>⟧.tells result).faults ≡ 0 }
    {
        HostFiles {
            rt,
            source: Source::Closed,
            taken: 0,
            faults: FaultCount::new(),
        }
    }
}

impl<'a, R: rt::Files + Input> Files for HostFiles<'a, R> {
    ghost tells = { λ m. record { text = λ name. None; left = None; taken = m.taken; faults = m.faults } };

    fn open_file(&mut self, name: &str) -> Result<(), OutFault> {
        if name == "-" {
            self.source = Source::Standard(self.rt.reader());
        } else {
            let Ok(file) = fs::open(self.rt, name) else {
                return Err(self.faults.failed());
            };
            self.source = Source::Named(file);
        }
        self.taken = 0;
        Ok(())
    }

    /// Fails also where one input has given more bytes than 64 bits count.
    fn read(&mut self, buf: &mut [u8]) -> Result<usize, OutFault> {
        let outcome = match &mut self.source {
            Source::Closed => Ok(0),
            Source::Standard(reader) => reader.read(buf),
            Source::Named(file) => file.read(buf),
        };
        let Ok(count) = outcome else {
            return Err(self.faults.failed());
        };
        let Some(taken) = self.taken.checked_add(count as u64) else {
            return Err(self.faults.failed());
        };
        self.taken = taken;
        Ok(count)
    }
}
