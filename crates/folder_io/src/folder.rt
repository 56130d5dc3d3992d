//! A folder, as a program may rely on it.
ghost use Rattle.std.specs.Prelude.{◌≡◌, ◌≤◌, length, IfOk, OnOk, OnErr, IsErrOf};
ghost use Rattle.std.specs.FinMap as finite;
ghost use Rattle.folder_io.specs.Causes.{Told, ToldBoth};
ghost use Rattle.folder_io.specs.Names.{Holds, IsMissing, IsLonger, SameBut};
ghost use Rattle.folder_io.specs.States.{FolderState, FailedFor, IsQuiet};

use crate::faults::{PutFault, TakeFault};
use std::alloc::Global;

/// Files by name.
///
/// Its state has three parts. `held` is the finite map from the names to the bytes under them, where the
/// folder tells it. `faults` is the count of the calls that failed; it never falls, and stays at 2^64 - 1
/// once it is there. `last` is the name given to the last call that answered Failed, empty before the
/// first.
pub trait Folder {
    ghost state: { Self → FolderState };

    /// The bytes under the name, which number at most `limit`.
    ///
    /// # Errors
    ///
    /// Failed where the folder's work failed, TooLong where more than `limit` bytes are held, Missing
    /// where nothing is held under the name, Memory where memory was refused.
    fn take(&mut self, alloc: Global, name: &str, limit: u64) -> Result<Vec<u8>, TakeFault>
        ensures held { (state self.new).held ≡ (state self.old).held }
        ensures short { IfOk result (λ v. length v.items ≤ limit) }
        ensures bytes { IfOk result
            (λ v. Told (state self.old).held (λ files. Holds files name.now v.items)) }

        ensures failed { IsErrOf result TakeFault.Failed →
            FailedFor (state self.old) (state self.new) name.now }
        ensures too_long { IsErrOf result TakeFault.TooLong →
            Told (state self.old).held (IsLonger limit name.now) }
        ensures missing { IsErrOf result TakeFault.Missing →
            Told (state self.old).held (IsMissing name.now) }

        ensures rises { (state self.old).faults ≤ (state self.new).faults }
        ensures quiet { ¬ IsErrOf result TakeFault.Failed →
            IsQuiet (state self.old) (state self.new) };

    /// Puts the bytes under the name, in place of what is there.
    ///
    /// # Errors
    ///
    /// Failed where the folder's work failed, Memory where memory was refused. After either what the
    /// name holds is not told, and every other name holds what it held.
    fn put(&mut self, alloc: Global, name: &str, bytes: &[u8]) -> Result<(), PutFault>
        ensures put { OnOk result (ToldBoth (state self.old).held (state self.new).held
            (λ old new. new ≡ finite.insert old name.now bytes.now)) }
        ensures others { OnErr result
            (ToldBoth (state self.old).held (state self.new).held (SameBut name.now)) }

        ensures failed { IsErrOf result PutFault.Failed →
            FailedFor (state self.old) (state self.new) name.now }

        ensures rises { (state self.old).faults ≤ (state self.new).faults }
        ensures quiet { ¬ IsErrOf result PutFault.Failed →
            IsQuiet (state self.old) (state self.new) };
}
