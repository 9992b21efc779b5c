//! The trusted edge: real files, standard input and standard output. Nothing is known of what they hold.

ghost use Rattle.std.specs.Prelude.{◌≡◌, [], None};

use crate::fault::counted;
use crate::{Failed, Shelf, Sink};
use std::fs;
use std::io::{self, Read, Write};
use std::marker::Model;
use std::rt::Files;

/// Tells what is being read.
#[derive(Drop)]
enum Source<F> {
    /// No text was begun.
    Nothing,
    /// Standard input.
    Input,
    /// A file that was opened.
    Text(F),
}

/// Reads real files by their paths; the empty name is standard input.
///
/// Contracts see the count of faults alone. An absent file fails at `begin`, a folder at the first `read`.
#[derive(Drop)]
pub struct HostShelf<'a, R: Files + Input> {
    rt: &'a R,
    source: Source<R::File>,
    faults: u64,
}

impl<'a, R: Files + Input> Model for HostShelf<'a, R> {
    ghost use Rattle.std.specs.Prelude.{ℕ};

    ghost Value = { ℕ };

    ghost view = { λ s. s.faults };
}

impl<'a, R: Files + Input> HostShelf<'a, R> {
    /// Makes a shelf of the files of `rt`. No text is begun.
    pub fn new(rt: &'a R) -> Self
        ensures { result ≡ 0 }
    {
        HostShelf {
            rt,
            source: Source::Nothing,
            faults: 0,
        }
    }
}

impl<'a, R: Files + Input> Shelf for HostShelf<'a, R> {
    ghost holds = { λ _ _. None };

    ghost left = { λ _. None };

    ghost faults = { λ s. s };

    ghost is_sound = { λ _. ⊥ };

    fn begin(&mut self, name: &str) -> Result<(), Failed> {
        if name.is_empty() {
            self.source = Source::Input;
            return Ok(());
        }
        match fs::open(self.rt, name) {
            Ok(file) => {
                self.source = Source::Text(file);
                Ok(())
            }
            Err(_) => Err(counted(&mut self.faults)),
        }
    }

    fn read(&mut self, buf: &mut [u8]) -> Result<usize, Failed> {
        let outcome = match &mut self.source {
            Source::Nothing => return Ok(0),
            Source::Input => self.rt.reader().read(buf),
            Source::Text(file) => file.read(buf),
        };
        match outcome {
            Ok(n) => Ok(n),
            Err(_) => Err(counted(&mut self.faults)),
        }
    }
}

/// Writes to standard output.
///
/// Contracts see the count of faults alone.
#[derive(Drop)]
pub struct HostSink<'a, R: Print> {
    rt: &'a R,
    faults: u64,
}

impl<'a, R: Print> Model for HostSink<'a, R> {
    ghost use Rattle.std.specs.Prelude.{ℕ};

    ghost Value = { ℕ };

    ghost view = { λ s. s.faults };
}

impl<'a, R: Print> HostSink<'a, R> {
    /// Makes a sink of the standard output of `rt`.
    pub fn new(rt: &'a R) -> Self
        ensures { result ≡ 0 }
    {
        HostSink { rt, faults: 0 }
    }
}

impl<'a, R: Print> Sink for HostSink<'a, R> {
    ghost state = { λ s. record { known = None; faults = s; pending = []; room = None } };

    fn write(&mut self, buf: &[u8]) -> Result<usize, Failed> {
        if let Ok(n) = io::writer(self.rt).write(buf) {
            if n > 0 || buf.is_empty() {
                return Ok(n);
            }
        }
        Err(counted(&mut self.faults))
    }

    fn flush(&mut self) -> Result<(), Failed> {
        Ok(())
    }
}
