//! The record in a file.
ghost use Rattle.std.specs.Prelude.{◌≡◌, IfOk, None};

use std::alloc::{AllocError, Global};
use std::fs::{File, Files, OpenFile, OpenOptions};
use std::io::{ErrorKind, Read, Write};
use std::{fs, io};
use xl_base::{
    Keeper, LoadOutcome, MOST_RECORD_BYTES, Record, RecordBad, StoreOutcome, has_file, read_record,
    record_bytes,
};

/// A record in a file. A store writes a file beside it, has the system write that to the disk, and gives it the file's name in one step;
/// then the name is on the disk too. So a crash leaves the record from before or the new one. Where there is no file, the record is
/// that of a server that never started.
#[derive(Drop)]
pub struct FileKeeper<R> {
    files: R,
    path: String,
    beside: String,
    folder: String,
    faults: u64,
}

/// The folder of a path.
fn folder_of(path: &str) -> &str {
    match path.rfind('/') {
        Some(0) => "/",
        Some(end) => &path[..end],
        None => ".",
    }
}

impl<R: Files + Drop> FileKeeper<R> {
    /// The keeper of the record in this file.
    pub fn new(alloc: Global, files: R, path: &str) -> Result<FileKeeper<R>, AllocError>
        ensures counts { IfOk result (λ keeper. keeper.faults ≡ 0) }
    {
        Ok(FileKeeper {
            files,
            path: String::from_str(alloc, path)?,
            beside: format!(in alloc; "{path}.new")?,
            folder: String::from_str(alloc, folder_of(path))?,
            faults: 0,
        })
    }
}

/// What a file has, and no more of it than one byte past the longest record.
fn read_file<F: Read + Drop>(alloc: Global, mut file: F) -> io::Result<Vec<u8>> {
    let mut text = Vec::new(alloc);
    let mut buffer = [0u8; 4_096];
    'reads: while text.len() <= MOST_RECORD_BYTES {
        let count = file.read(&mut buffer)?;
        if count == 0 {
            break;
        }
        text.extend_from_slice(&buffer[..count])?;
    }
    Ok(text)
}

/// Writes a file, and has the system write it to the disk.
fn write_file<F: Write + OpenFile + Drop>(mut file: F, bytes: &[u8]) -> io::Result<()> {
    file.write_all(bytes)?;
    file.sync_all()
}

impl<R: Files> FileKeeper<R> {
    /// The text of the record, None if there is no file.
    fn read(&self, alloc: Global) -> io::Result<Option<Vec<u8>>> {
        match File::open(&self.files, self.path.as_str()) {
            Ok(file) => Ok(Some(read_file(alloc, file)?)),
            Err(error) => match error.kind() {
                ErrorKind::NotFound => Ok(None),
                _ => Err(error),
            },
        }
    }

    /// Has this text be the record's.
    fn write(&self, bytes: &[u8]) -> io::Result<()> {
        let file = OpenOptions::new()
            .write(true)
            .create(true)
            .truncate(true)
            .open(&self.files, self.beside.as_str())?;
        write_file(file, bytes)?;
        fs::rename(&self.files, self.beside.as_str(), self.path.as_str())?;
        File::open(&self.files, self.folder.as_str())?.sync_all()
    }

    /// Stores the record, but counts no fault. A record without a file, since it is too long, is not stored.
    fn put(&self, alloc: Global, stable: &Record) -> StoreOutcome {
        if !has_file(stable) {
            return StoreOutcome::Failed;
        }
        let Ok(bytes) = record_bytes(alloc, stable) else {
            return StoreOutcome::NoMemory;
        };
        match self.write(&bytes) {
            Ok(()) => StoreOutcome::Stored,
            Err(_) => StoreOutcome::Failed,
        }
    }
}

/// The record of this text, that of a server that never started if there is none.
fn record_of(alloc: Global, text: Option<Vec<u8>>) -> LoadOutcome {
    let Some(text) = text else {
        return LoadOutcome::Loaded(Record::new(alloc));
    };
    match read_record(alloc, &text) {
        Ok(stable) => LoadOutcome::Loaded(stable),
        Err(RecordBad::NoMemory) => LoadOutcome::NoMemory,
        Err(_) => LoadOutcome::Failed,
    }
}

/// What a load came to that failed so.
fn failed_load(error: &io::Error) -> LoadOutcome {
    match error.kind() {
        ErrorKind::OutOfMemory => LoadOutcome::NoMemory,
        _ => LoadOutcome::Failed,
    }
}

impl<R: Files> Keeper for FileKeeper<R> {
    ghost held = { λ _. None };

    ghost given = { λ _. None };

    ghost faults = { λ k. k.faults };

    ghost left = { λ _. None };

    fn faults(&self) -> u64 {
        self.faults
    }

    fn load(&mut self, alloc: Global) -> LoadOutcome {
        let outcome = match self.read(alloc) {
            Ok(text) => record_of(alloc, text),
            Err(error) => failed_load(&error),
        };
        if let LoadOutcome::Failed = &outcome {
            self.faults = self.faults.saturating_add(1);
        }
        outcome
    }

    fn store(&mut self, alloc: Global, stable: &Record) -> StoreOutcome {
        let outcome = self.put(alloc, stable);
        if let StoreOutcome::Failed = outcome {
            self.faults = self.faults.saturating_add(1);
        }
        outcome
    }
}
