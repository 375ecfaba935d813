// The real files, and standard output.
ghost use Rattle.std.specs.Prelude.{◌≡◌, None};

use crate::fault_count::FaultCount;
use crate::files::OutFault;
use crate::sink::Sink;
use std::io::{Print, Write};
use std::{fs, rt};

#[derive(Drop)]
enum Target<R: rt::Files> {
    Standard,
    Nothing,
    Named(R::File),
}

/// Standard output, a real file by name, or an output that keeps nothing. Nothing is told of what was
/// written. Each piece is handed to the system whole, with no buffer between.
#[derive(Drop)]
pub struct HostSink<'a, R: rt::Files + Print> {
    rt: &'a R,
    target: Target<R>,
    faults: FaultCount,
}

impl<'a, R: rt::Files + Print> HostSink<'a, R> {
    /// Standard output, or an output that keeps nothing until it is opened.
    pub fn new(rt: &'a R, standard: bool) -> HostSink<'a, R>
        ensures { (⟦<HostSink<'a, R> as Sink>⟧.tells result).faults ≡ 0 }
    {
        let target = if standard {
            Target::Standard
        } else {
            Target::Nothing
        };
        HostSink {
            rt,
            target,
            faults: FaultCount::new(),
        }
    }
}

impl<'a, R: rt::Files + Print> Sink for HostSink<'a, R> {
    ghost tells = { λ m. record { written = None; flushed = None; opened = None; faults = m.faults } };

    fn open_sink(&mut self, name: Option<&str>) -> Result<(), OutFault> {
        let Some(name) = name else {
            self.target = Target::Nothing;
            return Ok(());
        };
        let Ok(file) = fs::create(self.rt, name) else {
            return Err(self.faults.failed());
        };
        self.target = Target::Named(file);
        Ok(())
    }

    fn write(&mut self, piece: &[u8]) -> Result<usize, OutFault> {
        let outcome = match &mut self.target {
            Target::Nothing => return Ok(piece.len()),
            Target::Standard => self.rt.write_some(piece),
            Target::Named(file) => file.write(piece),
        };
        match outcome {
            Ok(count) if count > 0 || piece.is_empty() => Ok(count),
            _ => Err(self.faults.failed()),
        }
    }

    fn flush(&mut self) -> Result<(), OutFault> {
        let outcome = match &mut self.target {
            Target::Nothing | Target::Standard => Ok(()),
            Target::Named(file) => file.flush(),
        };
        match outcome {
            Ok(()) => Ok(()),
            Err(_) => Err(self.faults.failed()),
        }
    }
}
