//! A folder and a sink in memory that never fail.
ghost use Rattle.std.specs.Prelude.{◌≡◌, ◌<◌, ◌≤◌, ◌++◌, [], length, Some, None, MatchOption, IfOk};
ghost use Rattle.std.specs.Prelude.{OnOk, OnErr, IsErrOf, IsOkUnless};
ghost use Rattle.std.specs.Option.{option_copied};
ghost use Rattle.std.specs.FinMap as finite;
ghost use Rattle.folder_io.specs.Names.{held_at, IsLonger, files_of, take_answer, Gives};

use crate::faults::{PutFault, SinkFault, TakeFault};
use crate::folder::Folder;
use crate::sink::Sink;
use crate::table::Table;
use std::alloc::{AllocError, Global};
use std::marker::Model;

/// A folder in memory that never answers Failed, seen as the map of what it holds. Its count of faults is
/// always 0, and its `last` is always empty.
#[derive(Debug, Drop)]
pub struct FolderSure {
    table: Table,
}

impl Model for FolderSure {
    ghost use Rattle.std.specs.FinMap as finite;
    ghost use Rattle.std.specs.Coded.{coded_list, coded_ℕ};
    ghost use Rattle.folder_io.specs.Names.{Files};

    ghost Value = { Files };

    ghost coded = { finite.code (coded_list coded_ℕ) (coded_list coded_ℕ) };

    ghost view = { λ a. a.table };
}

impl FolderSure {
    /// Holds `files[k]` under `names[k]`. It needs no more than as many names as files: where a name
    /// stands twice, its first file is held.
    ///
    /// # Errors
    ///
    /// Where memory was refused.
    pub fn holding(alloc: Global, names: &[String], files: &[Vec<u8>]) -> Result<Self, AllocError>
        requires { length names.now ≡ length files.now }
        ensures { IfOk result (λ folder. folder ≡ files_of names.now files.now) }
    {
        Ok(FolderSure {
            table: Table::holding(alloc, names, files)?,
        })
    }

    /// The bytes held under the name.
    pub fn get(&self, name: &str) -> Option<&[u8]>
        ensures { option_copied result ≡ held_at self.now name.now }
    {
        self.table.get(name)
    }
}

impl Folder for FolderSure {
    ghost state = { λ a. record { held = Some a; faults = 0; last = [] } };

    fn take(&mut self, alloc: Global, name: &str, limit: u64) -> Result<Vec<u8>, TakeFault>
        ensures exact { Gives result (take_answer (held_at self.old name.now) limit) }
        ensures never { ¬ IsErrOf result TakeFault.Failed }

        ensures held { self.new ≡ self.old }
        ensures short { IfOk result (λ v. length v.items ≤ limit) }
        ensures bytes { IfOk result (λ v. held_at self.old name.now ≡ Some v.items) }
        ensures too_long { IsErrOf result TakeFault.TooLong → IsLonger limit name.now self.old }
        ensures missing { IsErrOf result TakeFault.Missing → held_at self.old name.now ≡ None }
    {
        self.table.copied(alloc, name, limit)
    }

    fn put(&mut self, alloc: Global, name: &str, bytes: &[u8]) -> Result<(), PutFault>
        ensures exact { IsOkUnless result PutFault.Memory }
        ensures put { OnOk result (self.new ≡ finite.insert self.old name.now bytes.now) }
        ensures memory { OnErr result (self.new ≡ self.old) }
    {
        self.table.insert(alloc, name, bytes)?;
        Ok(())
    }
}

/// A sink in memory that never answers Failed, seen as the list of the bytes that it took. Its count of
/// faults is always 0.
#[derive(Debug, Drop)]
pub struct SinkSure {
    bytes: Vec<u8>,
}

impl Model for SinkSure {
    ghost use Rattle.std.specs.Prelude.{List, ℕ};

    ghost Value = { List ℕ };

    ghost view = { λ a. a.bytes.items };
}

impl SinkSure {
    /// An empty sink. It takes no memory.
    pub fn new(alloc: Global) -> Self
        ensures { result ≡ [] }
    {
        SinkSure {
            bytes: Vec::new(alloc),
        }
    }

    /// The bytes taken so far.
    pub fn written(&self) -> &[u8]
        ensures { result.now ≡ self.now }
    {
        self.bytes.as_slice()
    }
}

impl Sink for SinkSure {
    ghost state = { λ a. record { written = Some a; faults = 0 } };

    fn write(&mut self, bytes: &[u8]) -> Result<(), SinkFault>
        ensures exact { IsOkUnless result SinkFault.Memory }
        ensures all { OnOk result (self.new ≡ self.old ++ bytes.now) }
        ensures none { OnErr result (self.new ≡ self.old) }
    {
        self.bytes.extend_from_slice(bytes)?;
        Ok(())
    }
}
