//! A disk over a file. It is the edge to the outside: no contract knows what a file gives and takes, so it
//! tells nothing of content.
ghost use Rattle.std.specs.Prelude.{◌≡◌, ◌+◌, ◌<◌, ◌≤◌, ◌^◌, length, None, is_err, IfOk, OnOk, if◌then◌else◌};
ghost use Rattle.outside_io.specs.Told.{HasCause};
ghost use Rattle.outside_io.specs.Counts.{last_count, next_call, IsSpent};

use crate::disk::Disk;
use outside_io::Failed;
use std::fs::{File, OpenOptions};
use std::io::ErrorKind;
use std::marker::Model;
use std::os::unix::fs::FileExt;
use std::path::Path;

/// A file as a disk. It is opened at the first call, and made where it isn't there; a refused opening is a
/// fault of that call. Nothing is kept of what was read or written. Each call that the system refuses is
/// counted. After 2^64 - 1 of them it reaches the file no more, and answers Ok.
#[derive(Drop)]
pub struct FileDisk {
    runtime: HostRuntime,
    path: String,
    file: Option<File>,
    faults: u64,
    syncs: u64,
}

impl Model for FileDisk {
    ghost use Rattle.disk_core.specs.Files.{FileView};

    ghost Value = { FileView };

    ghost view = { λ d. record { faults = d.faults; syncs = d.syncs } };
}

impl FileDisk {
    /// The file of that name as a disk. It isn't reached yet.
    pub fn named(runtime: HostRuntime, path: String) -> FileDisk
        ensures { result ≡ record { faults = 0; syncs = 0 } }
    {
        FileDisk {
            runtime,
            path,
            file: None,
            faults: 0,
            syncs: 0,
        }
    }
}

impl Disk for FileDisk {
    ghost seen = { λ _. None };

    ghost images = { λ _ _. ⊥ };

    ghost moment = { λ _. 0 };

    ghost since = { λ _ _ _. ⊥ };

    ghost trail = { λ _. None };

    ghost faults = { λ d. d.faults };

    ghost syncs = { λ d. d.syncs };

    ghost only_now = { λ _ _ p. p };

    ghost counts_now = { λ _ _ p. p };

    ghost from_later = { λ _ _ _ _ _ p. p };

    ghost reads = { λ _. tt };

    ghost tells = { λ _ _ p. absurd p };

    ghost within = { λ _. tt };

    ghost traced = { λ _ _ _ p. p };

    ghost tracing = { λ _ _ _ p. p };

    ghost counted = { λ _. tt };

    fn len(&mut self) -> Result<u64, Failed> {
        if self.faults == u64::MAX {
            return Ok(0);
        }
        let answer = measure(&self.runtime, self.path.as_str(), &mut self.file);
        count_fault(&mut self.faults, answer)
    }

    fn read_at(&mut self, at: u64, buffer: &mut [u8]) -> Result<usize, Failed> {
        if self.faults == u64::MAX {
            return Ok(0);
        }
        let answer = read_front(
            &self.runtime,
            self.path.as_str(),
            &mut self.file,
            at,
            buffer,
        );
        count_fault(&mut self.faults, answer)
    }

    fn write_at(&mut self, at: u64, bytes: &[u8]) -> Result<(), Failed> {
        if self.faults == u64::MAX {
            return Ok(());
        }
        let answer = write_all(&self.runtime, self.path.as_str(), &mut self.file, at, bytes);
        count_fault(&mut self.faults, answer)
    }

    /// Asks the system to move the file to its device, by `fsync`.
    fn sync(&mut self) -> Result<(), Failed> {
        if self.faults == u64::MAX {
            return Ok(());
        }
        self.syncs = self.syncs.saturating_add(1);
        let answer = sync_all(&self.runtime, self.path.as_str(), &mut self.file);
        count_fault(&mut self.faults, answer)
    }
}

// Counts the fault of a call that failed.
fn count_fault<T>(faults: &mut u64, answer: Result<T, Failed>) -> Result<T, Failed>
    requires { faults.old < last_count }
    ensures same { result ≡ answer }
    ensures faults { faults.new ≡ (if is_err answer then faults.old + 1 else faults.old) }
{
    if answer.is_err() {
        *faults += 1;
    }
    answer
}

// Opens the file where it isn't open yet, and makes it where it isn't there.
fn open(runtime: &HostRuntime, path: &str, file: &mut Option<File>) -> Result<(), Failed> {
    if file.is_some() {
        return Ok(());
    }
    let Ok(opened) = OpenOptions::new()
        .read(true)
        .write(true)
        .create(true)
        .open(runtime, path)
    else {
        return Err(Failed);
    };
    sync_folder(runtime, path)?;
    *file = Some(opened);
    Ok(())
}

// Makes sure that the folder has the file's name.
fn sync_folder(runtime: &HostRuntime, path: &str) -> Result<(), Failed> {
    let folder = match Path::new(path).parent() {
        Some(folder) if !folder.as_str().is_empty() => folder.as_str(),
        _ => ".",
    };
    match File::open(runtime, folder) {
        Ok(folder) => folder.sync_all().map_err(|_| Failed),
        Err(_) => Err(Failed),
    }
}

// How many bytes the file has.
fn measure(runtime: &HostRuntime, path: &str, file: &mut Option<File>) -> Result<u64, Failed>
    ensures { IfOk result (λ n. n < 2 ^ 63) }
{
    open(runtime, path, file)?;
    let Some(file) = file else {
        return Err(Failed);
    };
    match file.metadata() {
        Ok(data) if data.len() < 1 << 63 => Ok(data.len()),
        _ => Err(Failed),
    }
}

// Fills the front of the buffer, as far as the file goes. A short read is gone on with.
fn read_front(
    runtime: &HostRuntime,
    path: &str,
    file: &mut Option<File>,
    at: u64,
    buffer: &mut [u8],
) -> Result<usize, Failed>
    ensures { IfOk result (λ n. n ≤ length buffer.new) }
{
    open(runtime, path, file)?;
    let Some(file) = file else {
        return Err(Failed);
    };
    let mut count = 0usize;
    for _ in 0..u64::MAX {
        if count >= buffer.len() {
            return Ok(count);
        }
        match file.read_at(&mut buffer[count..], at.saturating_add(count as u64)) {
            Ok(0) => return Ok(count),
            Ok(more) => count += more,
            Err(error) if error.kind() == ErrorKind::Interrupted => {}
            Err(_) => return Err(Failed),
        }
    }
    Err(Failed)
}

// Writes all of the bytes. A short write is gone on with.
fn write_all(
    runtime: &HostRuntime,
    path: &str,
    file: &mut Option<File>,
    at: u64,
    bytes: &[u8],
) -> Result<(), Failed> {
    open(runtime, path, file)?;
    let Some(file) = file else {
        return Err(Failed);
    };
    file.write_all_at(bytes, at).map_err(|_| Failed)
}

// Moves the file to its device.
fn sync_all(runtime: &HostRuntime, path: &str, file: &mut Option<File>) -> Result<(), Failed> {
    open(runtime, path, file)?;
    let Some(file) = file else {
        return Err(Failed);
    };
    file.sync_all().map_err(|_| Failed)
}
