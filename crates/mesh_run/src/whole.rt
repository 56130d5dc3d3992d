// How the run of all domains ends.
ghost use Rattle.std.specs.Prelude.{◌≡◌};
ghost use Rattle.std.specs.List.{list_any};
ghost use Rattle.mesh_run.specs.Whole.{end_of_all, is_stopped, is_stuck};

use super::{DomainRun, End};

/// Whether one of the runs was stopped.
fn has_stopped(runs: &[DomainRun]) -> bool
    ensures { result ≡ list_any (λ r. is_stopped r.end) runs.now }
{
    runs.iter().any(|run| matches!(run.end, End::Stopped))
}

/// Whether one of the runs is stuck.
fn has_stuck(runs: &[DomainRun]) -> bool
    ensures { result ≡ list_any (λ r. is_stuck r.end) runs.now }
{
    runs.iter().any(|run| matches!(run.end, End::Stuck))
}

/// Stopped if a domain's end is, else Stuck if one is, else Done.
pub fn whole_end(runs: &[DomainRun]) -> End
    ensures { result ≡ end_of_all runs.now }
{
    if has_stopped(runs) {
        End::Stopped
    } else if has_stuck(runs) {
        End::Stuck
    } else {
        End::Done
    }
}
