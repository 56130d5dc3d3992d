//! The files of a folder in memory, seen as the finite map from each name to its bytes.
ghost use Rattle.std.specs.Prelude.{◌≡◌, ◌≤◌, length, IfOk, OnOk, OnErr};
ghost use Rattle.std.specs.VecDeque.{deque_len, deque_capacity};
ghost use Rattle.std.specs.Option.{option_copied};
ghost use Rattle.std.specs.FinMap as finite;
ghost use Rattle.folder_io.specs.Names.{held_at, files_of, take_answer, Gives, without};

use crate::faults::TakeFault;
use std::alloc::{AllocError, Global};
use std::collections::VecDeque;
use std::marker::Model;

/// A list of entries, of which the first with a name is the one that counts.
#[derive(Debug, Drop)]
pub(crate) struct Table {
    entries: VecDeque<(String, Vec<u8>)>,
}

impl Model for Table {
    ghost use Rattle.std.specs.Prelude.{map};
    ghost use Rattle.std.specs.FinMap as finite;
    ghost use Rattle.std.specs.Coded.{coded_list, coded_ℕ};
    ghost use Rattle.folder_io.specs.Names.{Files, entry_bytes};

    ghost Value = { Files };

    ghost coded = { finite.code (coded_list coded_ℕ) (coded_list coded_ℕ) };

    ghost view = { λ a. finite.from_entries (map entry_bytes a.entries.items) };
}

impl Table {
    /// A table of `files[k]` under `names[k]`; where a name stands twice, its first file counts.
    pub(crate) fn holding(
        alloc: Global,
        names: &[String],
        files: &[Vec<u8>],
    ) -> Result<Self, AllocError>
        requires { length names.now ≡ length files.now }
        ensures { IfOk result (λ table. table ≡ files_of names.now files.now) }
    {
        let mut entries = VecDeque::new(alloc);
        for k in 0..names.len() {
            let name = names[k].clone()?;
            let bytes = files[k].to_vec(alloc)?;
            entries.push_back((name, bytes))?;
        }
        Ok(Table { entries })
    }

    pub(crate) fn get(&self, name: &str) -> Option<&[u8]>
        ensures { option_copied result ≡ held_at self.now name.now }
    {
        for entry in &self.entries {
            if entry.0.as_str() == name {
                return Some(entry.1.as_slice());
            }
        }
        None
    }

    /// A copy of the bytes under the name, if they number at most the limit.
    pub(crate) fn copied(&self, alloc: Global, name: &str, limit: u64) -> Result<Vec<u8>, TakeFault>
        ensures { Gives result (take_answer (held_at self.now name.now) limit) }
    {
        match self.get(name) {
            None => Err(TakeFault::Missing),
            Some(bytes) if bytes.len() as u64 > limit => Err(TakeFault::TooLong),
            Some(bytes) => Ok(bytes.to_vec(alloc)?),
        }
    }

    #[tactic(auto, using(crate::proofs::Tables::put_again))]
    /// Puts a copy of the bytes under the name, in place of what is there.
    pub(crate) fn insert(
        &mut self,
        alloc: Global,
        name: &str,
        bytes: &[u8],
    ) -> Result<(), AllocError>
        ensures ok { OnOk result (self.new ≡ finite.insert self.old name.now bytes.now) }
        ensures err { OnErr result (self.new ≡ self.old) }
    {
        let key = String::from_str(alloc, name)?;
        let copy = bytes.to_vec(alloc)?;
        self.entries.reserve(1)?;
        drop_entries(&mut self.entries, name);
        self.entries.push_front_reserved((key, copy));
        Ok(())
    }

    #[tactic(auto, using(crate::proofs::Tables::removed))]
    pub(crate) fn remove(&mut self, name: &str)
        ensures { self.new ≡ finite.remove self.old name.now }
    {
        drop_entries(&mut self.entries, name);
    }
}

// Drops the entries of a name, and leaves as much room as there was.
fn drop_entries(entries: &mut VecDeque<(String, Vec<u8>)>, name: &str)
    ensures entries { entries.new.items ≡ without name.now entries.old.items }
    ensures shorter { deque_len entries.new ≤ deque_len entries.old }
    ensures capacity { deque_capacity entries.new ≡ deque_capacity entries.old }
{
    entries.retain(|entry| entry.0.as_str() != name);
}
