//! A sink for text, as a program may rely on it.
ghost use Rattle.std.specs.Prelude.{◌≡◌, ◌≤◌, ◌++◌, OnOk, IsErrOf};
ghost use Rattle.folder_io.specs.Causes.{Rose, ToldBoth, GrowsByPrefix};
ghost use Rattle.folder_io.specs.States.{SinkState};

use crate::faults::SinkFault;

/// What takes bytes, one after another.
///
/// Its state has two parts. `written` has the bytes that were taken so far, where the sink tells them.
/// `faults` is the count of the calls that failed; it never falls, and stays at 2^64 - 1 once it is
/// there.
pub trait Sink {
    ghost state: { Self → SinkState };

    /// Takes all of the bytes.
    ///
    /// # Errors
    ///
    /// Failed where the sink's work failed, after it took a prefix of the bytes; Memory where memory was
    /// refused, and it took none.
    fn write(&mut self, bytes: &[u8]) -> Result<(), SinkFault>
        ensures all { OnOk result (ToldBoth (state self.old).written (state self.new).written
            (λ old new. new ≡ old ++ bytes.now)) }
        ensures prefix { IsErrOf result SinkFault.Failed
            → ToldBoth (state self.old).written (state self.new).written (GrowsByPrefix bytes.now) }
        ensures none { IsErrOf result SinkFault.Memory
            → (state self.new).written ≡ (state self.old).written }

        ensures failed { IsErrOf result SinkFault.Failed →
            Rose (state self.old).faults (state self.new).faults }

        ensures rises { (state self.old).faults ≤ (state self.new).faults }
        ensures quiet { ¬ IsErrOf result SinkFault.Failed
            → (state self.new).faults ≡ (state self.old).faults };
}
