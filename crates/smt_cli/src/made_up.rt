//! An environment that is made up: arguments and standard input are texts, and no file is there.

use std::alloc::{Allocator, Global};
use std::cell::Cell;
use std::env::FillError;
use std::fmt::Display;
use std::fs::{File, Metadata, OpenOptions};
use std::io::{self, BufRead, ErrorKind, Lines};
use std::rt::{Env, Files};

/// Holds what a program meets.
#[derive(Drop)]
pub(crate) struct MadeUp<'a> {
    /// Where memory is from.
    pub(crate) alloc: Global,
    /// The arguments, with a space between them. A `!` stands for a byte that no text has.
    pub(crate) arguments: &'a str,
    /// What standard input holds. The first read takes all of it.
    pub(crate) input: Cell<&'a str>,
    /// Whether what is written is taken.
    pub(crate) takes: bool,
}

/// Gives the fault of all that is not there.
fn absent<T>() -> io::Result<T> {
    Err(io::Error::from(ErrorKind::NotFound))
}

impl<'a> Env for MadeUp<'a> {
    fn arg(&self, i: usize, buf: &mut [u8]) -> Result<usize, FillError> {
        let Some(argument) = self.arguments.split(' ').nth(i) else {
            return Err(FillError::NotPresent);
        };
        let Some(taken) = buf.get_mut(..argument.len()) else {
            return Err(FillError::TooLong);
        };
        for (to, from) in taken.iter_mut().zip(argument.bytes()) {
            *to = if from == b'!' { 0xff } else { from };
        }
        Ok(argument.len())
    }

    fn var(&self, _name: &str, _buf: &mut [u8]) -> Result<usize, FillError> {
        Err(FillError::NotPresent)
    }

    fn var_at(&self, _i: usize, _buf: &mut [u8]) -> Result<usize, FillError> {
        Err(FillError::NotPresent)
    }
}

impl<'a> Alloc for MadeUp<'a> {
    type A = Global;

    fn alloc(&self) -> Global {
        self.alloc
    }
}

impl<'a> Print for MadeUp<'a> {
    fn print<D: Display + Drop>(&self, _value: D) -> io::Result<()> {
        self.write_all(b"")
    }

    fn println<D: Display + Drop>(&self, _value: D) -> io::Result<()> {
        self.write_all(b"")
    }

    fn write_all(&self, _bytes: &[u8]) -> io::Result<()> {
        if self.takes { Ok(()) } else { absent() }
    }
}

impl<'a> Input for MadeUp<'a> {
    type Reader = &'a [u8];

    fn read_line<A: Allocator + Clone>(&self, _buf: &mut String<A>) -> io::Result<usize> {
        Ok(0)
    }

    fn lines<A: Allocator>(&self, alloc: A) -> Lines<&'a [u8], A> {
        self.reader().lines(alloc)
    }

    fn reader(&self) -> &'a [u8] {
        self.input.replace("").as_bytes()
    }
}

impl<'a> Files for MadeUp<'a> {
    type File = File;

    type Dir = File;

    fn open_file(&self, _how: &OpenOptions, _path: &str) -> io::Result<File> {
        absent()
    }

    fn open_dir(&self, _path: &str) -> io::Result<File> {
        absent()
    }

    fn metadata(&self, _path: &str) -> io::Result<Metadata> {
        absent()
    }

    fn symlink_metadata(&self, _path: &str) -> io::Result<Metadata> {
        absent()
    }

    fn copy(&self, _from: &str, _to: &str) -> io::Result<u64> {
        absent()
    }

    fn rename(&self, _from: &str, _to: &str) -> io::Result<()> {
        absent()
    }

    fn remove_file(&self, _path: &str) -> io::Result<()> {
        absent()
    }

    fn create_dir(&self, _path: &str) -> io::Result<()> {
        absent()
    }

    fn remove_dir(&self, _path: &str) -> io::Result<()> {
        absent()
    }

    fn remove_dir_all<B: Allocator>(&self, _alloc: B, _path: &str) -> io::Result<()> {
        absent()
    }
}
