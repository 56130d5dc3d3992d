//! What a call of the program ends with.

ghost use Rattle.std.specs.Prelude.{◌≡◌};
ghost use Rattle.netmesh_cli.specs.declared.outcome.Refusal.TheVariants.{Memory as NoMemory};
ghost use Rattle.netmesh_cli.specs.Status.{status_of, refusal_status};

use call_words::WordsFault;
use geom_check::GeomRefusal;
use in2d_reader::In2dRefusal;
use rule_reader::RuleRefusal;
use run_log::LogRefusal;
use std::alloc::AllocError;
use vol_format::VolRefusal;
use word_scan::Name;

/// How a call of the program ended.
#[derive(Debug, Drop)]
pub enum Outcome {
    /// Each domain is meshed: no front is left.
    Done,
    /// A front is left, and no rule applies to it.
    Stuck,
    /// A front is left, and the given number of applications was made.
    Stopped,
    /// The verdict was whole or the same.
    Good,
    /// The verdict was another.
    Bad,
    /// What was asked for is written.
    Shown,
    /// Nothing was made of it, and why.
    Refused(Refusal),
}

/// Why a call of the program was refused.
#[derive(Debug, Drop)]
pub enum Refusal {
    /// The words of the call are at fault.
    Words(WordsFault),
    /// The geometry's text is none.
    In2d(In2dRefusal),
    /// The geometry is not accepted.
    Geometry(GeomRefusal),
    /// The rule file is at fault.
    Rules(RuleRefusal),
    /// The mesh's text is none at the shift of the geometry.
    Vol(VolRefusal),
    /// The log's text is none, or it doesn't have the state that is asked for.
    Log(LogRefusal),
    /// The folder refused the file of this name: 1 a call failed, 2 the file is longer than its
    /// limit, 3 there is no such file.
    Folder { name: Name, fault: u32 },
    /// The answer was not taken.
    Out,
    /// There was no memory left.
    Memory,
    /// A form that is not built yet: 1 a verb.
    NotYet { part: u32 },
}

impl From<AllocError> for Refusal {
    ghost from_gives = { λ _ refusal. refusal ≡ NoMemory };

    fn from(_refused: AllocError) -> Refusal {
        Refusal::Memory
    }
}

impl Refusal {
    /// The status of a refusal.
    fn status(&self) -> u8
        ensures { result ≡ refusal_status self.now }
    {
        match self {
            Refusal::Words(_) => 2,
            Refusal::In2d(_) | Refusal::Geometry(_) => 3,
            Refusal::Rules(_) => 4,
            Refusal::Folder { .. } => 5,
            Refusal::Out => 6,
            Refusal::Memory => 7,
            Refusal::Vol(_) => 10,
            Refusal::Log(_) => 11,
            Refusal::NotYet { .. } => 12,
        }
    }
}

impl Outcome {
    /// The status that the program ends with: 0 where the work is done, 1 stuck, 2 words at fault,
    /// 3 a geometry that isn't accepted, 4 a rule file at fault, 5 a folder's refusal, 6 the answer not
    /// taken, 7 no memory, 8 stopped, 9 a bad verdict, 10 a mesh at fault, 11 a log at fault, 12 a form that
    /// is not built yet.
    pub fn status(&self) -> u8
        ensures { result ≡ status_of self.now }
    {
        match self {
            Outcome::Done | Outcome::Good | Outcome::Shown => 0,
            Outcome::Stuck => 1,
            Outcome::Stopped => 8,
            Outcome::Bad => 9,
            Outcome::Refused(refusal) => refusal.status(),
        }
    }
}
