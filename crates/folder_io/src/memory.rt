//! A folder and a sink in memory, which tell everything and fail at the calls that they were made to
//! fail at.
ghost use Rattle.std.specs.Prelude.{◌≡◌, ◌≤◌, ◌⊎◌, ◌++◌, [], true, length, Some, IfOk, OnOk, OnErr};
ghost use Rattle.std.specs.Prelude.{IsErrOf, if◌then◌else◌, Ok, Err};
ghost use Rattle.std.specs.Option.{option_copied};
ghost use Rattle.std.specs.FinMap as finite;
ghost use Rattle.folder_io.specs.Causes.{Rose};
ghost use Rattle.folder_io.specs.Names.{held_at, SameBut, files_of, take_answer, Gives};
ghost use Rattle.folder_io.specs.Plans.{fails_next, after_call, new_plan};

use crate::faults::{PutFault, SinkFault, TakeFault};
use crate::folder::Folder;
use crate::plan::FaultPlan;
use crate::sink::Sink;
use crate::table::Table;
use std::alloc::{AllocError, Global};
use std::marker::Model;

/// A folder in memory that fails at planned calls.
///
/// Its calls of `take` and `put` are counted together, from 1 after it was made; a call that answers
/// Memory isn't counted, and leaves the folder as it was. The calls whose numbers are in the list `fail`
/// answer Failed, before Missing and TooLong are looked at. A failed put leaves the name absent.
#[derive(Debug, Drop)]
pub struct FolderMem {
    table: Table,
    plan: FaultPlan,
    last: String,
}

impl Model for FolderMem {
    ghost use Rattle.std.specs.Prelude.{string_bytes};
    ghost use Rattle.folder_io.specs.Plans.{MemoryFolder, coded_MemoryFolder};

    ghost Value = { MemoryFolder };

    ghost coded = { coded_MemoryFolder };

    ghost view = { λ a. record { files = a.table; plan = a.plan; last = string_bytes a.last } };
}

impl FolderMem {
    /// Holds `files[k]` under `names[k]`. It needs no more than as many names as files: where a name
    /// stands twice, its first file is held. The calls with the numbers in `fail` are to fail.
    ///
    /// # Errors
    ///
    /// Where memory was refused.
    pub fn holding(
        alloc: Global,
        names: &[String],
        files: &[Vec<u8>],
        fail: &[u64],
    ) -> Result<Self, AllocError>
        requires { length names.now ≡ length files.now }
        ensures { IfOk result (λ folder. folder ≡ record {
          files = files_of names.now files.now;
          plan = new_plan fail.now;
          last = [];
        }) }
    {
        Ok(FolderMem {
            table: Table::holding(alloc, names, files)?,
            plan: FaultPlan::new(alloc, fail)?,
            last: String::new(alloc),
        })
    }

    /// The bytes held under the name. It is no call that the plan counts.
    pub fn get(&self, name: &str) -> Option<&[u8]>
        ensures { option_copied result ≡ held_at self.now.files name.now }
    {
        self.table.get(name)
    }

    /// How many calls failed.
    pub fn faults(&self) -> u64
        ensures { result ≡ self.now.plan.faults }
    {
        self.plan.faults()
    }

    /// The name given to the last call that failed, empty before the first.
    pub fn last(&self) -> &str
        ensures { result.now ≡ self.now.last }
    {
        self.last.as_str()
    }

    /// Counts a call that was to fail, at this name.
    fn fail(&mut self, alloc: Global, name: &str) -> Result<(), AllocError>
        requires { fails_next self.old.plan ≡ true }
        ensures ok { OnOk result (self.new ≡ record {
          files = self.old.files;
          plan = after_call self.old.plan;
          last = name.now;
        }) }
        ensures rises { self.old.plan.faults ≤ self.new.plan.faults }
        ensures err { OnErr result (self.new ≡ self.old) }
    {
        let name = String::from_str(alloc, name)?;
        self.plan.count_failed();
        self.last = name;
        Ok(())
    }
}

impl Folder for FolderMem {
    ghost state = { λ a. record { held = Some a.files; faults = a.plan.faults; last = a.last } };

    fn take(&mut self, alloc: Global, name: &str, limit: u64) -> Result<Vec<u8>, TakeFault>
        // What this folder answers and leaves.
        ensures exact { Gives result (if fails_next self.old.plan
            then Err TakeFault.Failed
            else take_answer (held_at self.old.files name.now) limit) }
        ensures files { self.new.files ≡ self.old.files }
        ensures counted { ¬ IsErrOf result TakeFault.Memory →
            self.new.plan ≡ after_call self.old.plan }
        ensures memory { IsErrOf result TakeFault.Memory → self.new ≡ self.old }
        ensures unplanned { self.old.plan.fail ≡ [] → ¬ IsErrOf result TakeFault.Failed }

        // What every folder promises.
        ensures failed { IsErrOf result TakeFault.Failed
            → Rose self.old.plan.faults self.new.plan.faults × (self.new.last ≡ name.now) }
        ensures rises { self.old.plan.faults ≤ self.new.plan.faults }
        ensures quiet { ¬ IsErrOf result TakeFault.Failed
            → (self.new.plan.faults ≡ self.old.plan.faults) × (self.new.last ≡ self.old.last) }
    {
        if self.plan.fails_next() {
            self.fail(alloc, name)?;
            return Err(TakeFault::Failed);
        }
        let answer = self.table.copied(alloc, name, limit);
        if let Err(TakeFault::Memory) = answer {
            return answer;
        }
        self.plan.count_passed();
        answer
    }

    #[tactic(auto, using(crate::proofs::Tables::same_but_removed))]
    fn put(&mut self, alloc: Global, name: &str, bytes: &[u8]) -> Result<(), PutFault>
        // What this folder answers and leaves.
        ensures exact { IsErrOf result PutFault.Memory
            ⊎ (result ≡ (if fails_next self.old.plan then Err PutFault.Failed else Ok tt)) }
        ensures absent { IsErrOf result PutFault.Failed
            → self.new.files ≡ finite.remove self.old.files name.now }
        ensures counted { ¬ IsErrOf result PutFault.Memory →
            self.new.plan ≡ after_call self.old.plan }
        ensures memory { IsErrOf result PutFault.Memory → self.new ≡ self.old }
        ensures unplanned { self.old.plan.fail ≡ [] → ¬ IsErrOf result PutFault.Failed }

        // What every folder promises.
        ensures put { OnOk result
            (self.new.files ≡ finite.insert self.old.files name.now bytes.now) }
        ensures others { OnErr result (SameBut name.now self.old.files self.new.files) }
        ensures failed { IsErrOf result PutFault.Failed
            → Rose self.old.plan.faults self.new.plan.faults × (self.new.last ≡ name.now) }
        ensures rises { self.old.plan.faults ≤ self.new.plan.faults }
        ensures quiet { ¬ IsErrOf result PutFault.Failed
            → (self.new.plan.faults ≡ self.old.plan.faults) × (self.new.last ≡ self.old.last) }
    {
        if self.plan.fails_next() {
            self.fail(alloc, name)?;
            self.table.remove(name);
            return Err(PutFault::Failed);
        }
        self.table.insert(alloc, name, bytes)?;
        self.plan.count_passed();
        Ok(())
    }
}

/// A sink in memory that fails at planned calls.
///
/// Its writes are counted from 1; a write that answers Memory isn't counted, and leaves the sink as it
/// was. The writes whose numbers are in the list `fail` answer Failed and take no byte.
#[derive(Debug, Drop)]
pub struct SinkMem {
    bytes: Vec<u8>,
    plan: FaultPlan,
}

impl Model for SinkMem {
    ghost use Rattle.folder_io.specs.Plans.{MemorySink};

    ghost Value = { MemorySink };

    ghost view = { λ a. record { written = a.bytes.items; plan = a.plan } };
}

impl SinkMem {
    /// An empty sink. The writes with the numbers in `fail` are to fail.
    ///
    /// # Errors
    ///
    /// Where memory was refused.
    pub fn new(alloc: Global, fail: &[u64]) -> Result<Self, AllocError>
        ensures { IfOk result (λ sink. sink ≡ record { written = []; plan = new_plan fail.now }) }
    {
        Ok(SinkMem {
            bytes: Vec::new(alloc),
            plan: FaultPlan::new(alloc, fail)?,
        })
    }

    /// The bytes taken so far.
    pub fn written(&self) -> &[u8]
        ensures { result.now ≡ self.now.written }
    {
        self.bytes.as_slice()
    }

    /// How many writes failed.
    pub fn faults(&self) -> u64
        ensures { result ≡ self.now.plan.faults }
    {
        self.plan.faults()
    }
}

impl Sink for SinkMem {
    ghost state = { λ a. record { written = Some a.written; faults = a.plan.faults } };

    fn write(&mut self, bytes: &[u8]) -> Result<(), SinkFault>
        // What this sink answers and leaves.
        ensures exact { IsErrOf result SinkFault.Memory
            ⊎ (result ≡ (if fails_next self.old.plan then Err SinkFault.Failed else Ok tt)) }
        ensures refused { OnErr result (self.new.written ≡ self.old.written) }
        ensures counted { ¬ IsErrOf result SinkFault.Memory →
            self.new.plan ≡ after_call self.old.plan }
        ensures memory { IsErrOf result SinkFault.Memory → self.new ≡ self.old }
        ensures unplanned { self.old.plan.fail ≡ [] → ¬ IsErrOf result SinkFault.Failed }

        // What every sink promises.
        ensures all { OnOk result (self.new.written ≡ self.old.written ++ bytes.now) }
        ensures failed { IsErrOf result SinkFault.Failed →
            Rose self.old.plan.faults self.new.plan.faults }
        ensures rises { self.old.plan.faults ≤ self.new.plan.faults }
        ensures quiet { ¬ IsErrOf result SinkFault.Failed →
            self.new.plan.faults ≡ self.old.plan.faults }
    {
        if self.plan.fails_next() {
            self.plan.count_failed();
            return Err(SinkFault::Failed);
        }
        self.bytes.extend_from_slice(bytes)?;
        self.plan.count_passed();
        Ok(())
    }
}
