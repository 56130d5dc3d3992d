//! The working folder of the system.
ghost use Rattle.std.specs.Prelude.{◌≡◌, ◌≤◌, ◌+◌, ◌-◌, ◌^◌, min, [], take, None, Some, IfOk};
ghost use Rattle.std.specs.Prelude.{string_bytes};
ghost use Rattle.folder_io.specs.Causes.{Told};

use crate::faults::{PutFault, TakeFault};
use crate::folder::Folder;
use crate::whole::put_whole;
use std::alloc::Global;
use std::io::{ErrorKind, Read};
use std::marker::Model;
use std::rt::Files;
use std::{fs, io};

/// The working folder, which tells nothing of what it holds. It is trusted: that the system keeps and
/// gives the bytes of its files is proved nowhere.
#[derive(Drop)]
pub struct FolderDisk<R: Files + Drop> {
    rt: R,
    faults: u64,
    last: String,
    reason: Option<ErrorKind>,
}

impl<R: Files + Drop> Model for FolderDisk<R> {
    ghost use Rattle.std.specs.Prelude.{string_bytes};
    ghost use Rattle.folder_io.specs.Plans.{Failures};

    ghost Value = { Failures };

    ghost view = { λ a. record {
      faults = a.faults;
      last = string_bytes a.last;
      reason = a.reason;
    } };
}

impl<R: Files + Drop> FolderDisk<R> {
    /// The working folder that the runtime reaches.
    pub fn new(rt: R, alloc: Global) -> Self
        ensures { result ≡ record { faults = 0; last = []; reason = None } }
    {
        FolderDisk {
            rt,
            faults: 0,
            last: String::new(alloc),
            reason: None,
        }
    }

    /// How many calls failed.
    pub fn faults(&self) -> u64
        ensures { result ≡ self.now.faults }
    {
        self.faults
    }

    /// The name given to the last call that failed, empty before the first.
    pub fn last(&self) -> &str
        ensures { result.now ≡ self.now.last }
    {
        self.last.as_str()
    }

    /// What sort of fault the system gave at the last call that failed, none before the first.
    pub fn reason(&self) -> Option<ErrorKind>
        ensures { result ≡ self.now.reason }
    {
        self.reason
    }

    /// Counts a call that failed at this name, for this reason.
    fn count(&mut self, name: String, reason: ErrorKind)
        ensures counted { self.new ≡ record {
          faults = min (self.old.faults + 1) (2 ^ 64 - 1);
          last = string_bytes name;
          reason = Some reason;
        } }
        ensures rises { self.old.faults ≤ self.new.faults }
    {
        self.faults = self.faults.saturating_add(1);
        self.last = name;
        self.reason = Some(reason);
    }
}

impl<R: Files + Drop> Folder for FolderDisk<R> {
    ghost state = { λ a. record { held = None; faults = a.faults; last = a.last } };

    /// Reads at most one byte more than the limit. Missing is the system's answer that there is no such
    /// file.
    fn take(&mut self, alloc: Global, name: &str, limit: u64) -> Result<Vec<u8>, TakeFault> {
        let copy = String::from_str(alloc, name)?;
        match fs::open(&self.rt, name).and_then(|file| read_within(file, alloc, limit)) {
            Ok(bytes) if bytes.len() as u64 <= limit => Ok(bytes),
            Ok(_) => Err(TakeFault::TooLong),
            Err(e) if e.kind() == ErrorKind::NotFound => Err(TakeFault::Missing),
            Err(e) if e.kind() == ErrorKind::OutOfMemory => Err(TakeFault::Memory),
            Err(e) => {
                self.count(copy, e.kind());
                Err(TakeFault::Failed)
            }
        }
    }

    /// Writes the whole file under the name, or leaves what stands there as it was: what is no plain
    /// file alone is written through.
    fn put(&mut self, alloc: Global, name: &str, bytes: &[u8]) -> Result<(), PutFault> {
        let copy = String::from_str(alloc, name)?;
        match put_whole(&self.rt, alloc, name, bytes) {
            Ok(()) => Ok(()),
            Err(e) if e.kind() == ErrorKind::OutOfMemory => Err(PutFault::Memory),
            Err(e) => {
                self.count(copy, e.kind());
                Err(PutFault::Failed)
            }
        }
    }
}

/// What the source has left, but no more than the first `limit + 1` bytes of it: enough to see whether
/// it passes the limit.
fn read_within<S: Read + Drop>(source: S, alloc: Global, limit: u64) -> io::Result<Vec<u8>>
    ensures { IfOk result (λ v. Told (S.remaining source)
        (λ left. v.items ≡ take (min (limit + 1) (2 ^ 64 - 1)) left)) }
{
    let mut bytes = Vec::new(alloc);
    source
        .take(limit.saturating_add(1))
        .read_to_end(&mut bytes)?;
    Ok(bytes)
}
