//! Standard output.
ghost use Rattle.std.specs.Prelude.{◌≡◌, None};

use crate::faults::SinkFault;
use crate::sink::Sink;
use std::io;
use std::io::{ErrorKind, Write};
use std::marker::Model;

/// Standard output, which tells nothing of what it took. It is trusted: that the system shows the bytes
/// is proved nowhere.
#[derive(Drop)]
pub struct SinkStd<R: Print + Drop> {
    rt: R,
    faults: u64,
}

impl<R: Print + Drop> Model for SinkStd<R> {
    ghost use Rattle.std.specs.Prelude.{ℕ};

    ghost Value = { ℕ };

    ghost view = { λ a. a.faults };
}

impl<R: Print + Drop> SinkStd<R> {
    /// The standard output that the runtime reaches.
    pub fn new(rt: R) -> Self
        ensures { result ≡ 0 }
    {
        SinkStd { rt, faults: 0 }
    }

    /// How many writes failed.
    pub fn faults(&self) -> u64
        ensures { result ≡ self.now }
    {
        self.faults
    }
}

impl<R: Print + Drop> Sink for SinkStd<R> {
    ghost state = { λ a. record { written = None; faults = a } };

    fn write(&mut self, bytes: &[u8]) -> Result<(), SinkFault> {
        match io::writer(&self.rt).write_all(bytes) {
            Ok(()) => Ok(()),
            Err(e) if e.kind() == ErrorKind::OutOfMemory => Err(SinkFault::Memory),
            Err(_) => {
                self.faults = self.faults.saturating_add(1);
                Err(SinkFault::Failed)
            }
        }
    }
}
