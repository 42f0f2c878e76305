ghost use Rattle.std.specs.Prelude.{◌≡◌, ◌<◌, ◌≤◌, ◌+◌, ◌-◌, ◌^◌, ℕ, None, IfSome, false, length, min};
ghost use Rattle.edge_io.specs.Shelf.{raised};

use crate::calls::one_more;
use crate::shelf::{Failed, Shelf};
use std::alloc::Global;
use std::fs;
use std::io::{Read, Seek, SeekFrom, Write};
use std::rt::Files;
use texts::Text;

/// The files of the machine, each under its path. It tells no content, and counts the faults of all names together.
///
/// It keeps open the file that it last read and the one that it last started, so that a file is read, or
/// written, from its beginning to its end with one open and no seek. An append to a name other than the one
/// last started, and memory that is refused inside a call, are faults.
pub struct FileShelf<'a, R: Files> {
    rt: &'a R,
    alloc: Global,
    reading: Option<Reading<R::File>>,
    writing: Option<Writing<R::File>>,
    faults: u64,
}

// A file that is open for reading, and the place where its next read begins.
#[derive(Drop)]
struct Reading<F> {
    name: Text,
    file: F,
    at: u64,
}

// A file that was started.
#[derive(Drop)]
struct Writing<F> {
    name: Text,
    file: F,
}

impl<R: Files> Drop for FileShelf<'_, R> {
    fn drop(self) {
        let FileShelf {
            rt: _,
            alloc: _,
            reading: _,
            writing: _,
            faults: _,
        } = self;
    }
}

impl<F: Read + Seek> Reading<F> {
    // The next read goes on where this one ended.
    fn read_at(&mut self, at: u64, into: &mut [u8]) -> Option<usize>
        ensures count { IfSome result (λ n. n ≤ length into.new) }
        ensures place { IfSome result (λ n. self.new.at ≡ min (at + n) (2 ^ 64 - 1)) }
    {
        if self.at != at {
            self.file.seek(SeekFrom::Start(at)).ok()?;
            self.at = at;
        }
        let count = self.file.read(into).ok()?;
        self.at = at.saturating_add(count as u64);
        Some(count)
    }
}

impl<F: Write> Writing<F> {
    fn append(&mut self, piece: &[u8]) -> Option<usize>
        ensures { IfSome result (λ n. (n ≤ length piece.now) × (0 < length piece.now → 0 < n)) }
    {
        let count = self.file.write(piece).ok()?;
        if count == 0 && !piece.is_empty() {
            return None;
        }
        Some(count)
    }
}

impl<'a, R: Files> FileShelf<'a, R> {
    /// A shelf that has no file open, and takes no memory yet.
    pub fn new(rt: &'a R, alloc: Global) -> FileShelf<'a, R>
        ensures { result.faults ≡ 0 }
    {
        FileShelf {
            rt,
            alloc,
            reading: None,
            writing: None,
            faults: 0,
        }
    }

    // Opens the file, unless it is the one that was last read. Where the read fails it is closed.
    fn read(&mut self, name: &str, at: u64, into: &mut [u8]) -> Option<usize>
        ensures count { IfSome result (λ n. n ≤ length into.new) }
        ensures faults { self.new.faults ≡ self.old.faults }
    {
        let mut reading = match self.reading.take() {
            Some(reading) if reading.name.as_bytes() == name.as_bytes() => reading,
            _ => Reading {
                name: Text::from_bytes(self.alloc, name.as_bytes()).ok()?,
                file: fs::open(self.rt, name).ok()?,
                at: 0,
            },
        };
        let count = reading.read_at(at, into)?;
        self.reading = Some(reading);
        Some(count)
    }

    fn create(&mut self, name: &str) -> Option<()>
        ensures { self.new.faults ≡ self.old.faults }
    {
        let kept = Text::from_bytes(self.alloc, name.as_bytes()).ok()?;
        let file = fs::create(self.rt, name).ok()?;
        self.writing = Some(Writing { name: kept, file });
        Some(())
    }

    fn write(&mut self, name: &str, piece: &[u8]) -> Option<usize>
        ensures faults { self.new.faults ≡ self.old.faults }
        ensures count { IfSome result (λ n. (n ≤ length piece.now) × (0 < length piece.now → 0 < n)) }
    {
        let writing = self.writing.as_mut()?;
        if writing.name.as_bytes() != name.as_bytes() {
            return None;
        }
        writing.append(piece)
    }

    fn fault(&mut self) -> Failed
        ensures { self.new.faults ≡ raised self.old.faults }
    {
        self.faults = one_more(self.faults);
        Failed
    }
}

impl<R: Files> Shelf for FileShelf<'_, R> {
    ghost held = { λ _ _. None };

    ghost written = { λ _ _. None };

    ghost tells = { false };

    ghost faults = { λ s _ _. s.faults };

    fn read_at(&mut self, name: &str, at: u64, into: &mut [u8]) -> Result<usize, Failed> {
        match self.read(name, at, into) {
            Some(count) => Ok(count),
            None => Err(self.fault()),
        }
    }

    fn start(&mut self, name: &str) -> Result<(), Failed> {
        match self.create(name) {
            Some(()) => Ok(()),
            None => Err(self.fault()),
        }
    }

    fn append(&mut self, name: &str, piece: &[u8]) -> Result<usize, Failed> {
        match self.write(name, piece) {
            Some(count) => Ok(count),
            None => Err(self.fault()),
        }
    }
}
