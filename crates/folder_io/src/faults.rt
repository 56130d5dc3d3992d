//! Why a folder or a sink refused.
ghost use Rattle.folder_io.specs.declared.faults.TakeFault.TheVariants.{Memory as TakeMemory};
ghost use Rattle.folder_io.specs.declared.faults.PutFault.TheVariants.{Memory as PutMemory};
ghost use Rattle.folder_io.specs.declared.faults.SinkFault.TheVariants.{Memory as SinkMemory};
ghost use Rattle.std.specs.Prelude.{◌≡◌};

use std::alloc::AllocError;

/// Why a folder gave no bytes.
#[derive(Clone, Copy, Debug, PartialEq, Eq)]
pub enum TakeFault {
    /// The work of the folder failed; its count of faults rose.
    Failed,
    /// More bytes than the limit are held under the name.
    TooLong,
    /// Nothing is held under the name. This is no fault of the folder, and raises no count.
    Missing,
    /// Memory was refused.
    Memory,
}

/// Why a folder took no bytes under a name. What the name then holds is not told.
#[derive(Clone, Copy, Debug, PartialEq, Eq)]
pub enum PutFault {
    /// The work of the folder failed; its count of faults rose.
    Failed,
    /// Memory was refused.
    Memory,
}

/// Why a sink took not all of the bytes.
#[derive(Clone, Copy, Debug, PartialEq, Eq)]
pub enum SinkFault {
    /// The work of the sink failed; its count of faults rose, and it took a prefix of the bytes.
    Failed,
    /// Memory was refused; the sink took no byte.
    Memory,
}

impl From<AllocError> for TakeFault {
    ghost from_gives = { λ _ fault. fault ≡ TakeMemory };

    fn from(_refused: AllocError) -> TakeFault {
        TakeFault::Memory
    }
}

impl From<AllocError> for PutFault {
    ghost from_gives = { λ _ fault. fault ≡ PutMemory };

    fn from(_refused: AllocError) -> PutFault {
        PutFault::Memory
    }
}

impl From<AllocError> for SinkFault {
    ghost from_gives = { λ _ fault. fault ≡ SinkMemory };

    fn from(_refused: AllocError) -> SinkFault {
        SinkFault::Memory
    }
}
