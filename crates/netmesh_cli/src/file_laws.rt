//! Laws of the files that are taken, over the definitions alone.

ghost use Rattle.std.specs.Prelude.{◌≡◌, ℕ, List};
ghost use Rattle.folder_io.specs.Names.{Files};
ghost use Rattle.netmesh_cli.specs.declared.outcome.Refusal.{Refusal as RefusalValue};
ghost use Rattle.netmesh_cli.specs.Kinds.{Kind, Accepts, Rejects};
ghost use Rattle.netmesh_cli.specs.Taking.{Taken, AreAccepted, FirstRefused};

/// Bytes that are accepted as a file of a kind, beside the files that are held, aren't refused as one, and
/// bytes have one refusal at most.
pub fn one_rejection()
    ensures one { (files : Files) (kind : Kind) (bytes : List ℕ) (r s : RefusalValue)
        → Rejects files kind bytes r → Rejects files kind bytes s → r ≡ s }
    ensures never_both { (files : Files) (kind : Kind) (bytes : List ℕ) (r : RefusalValue)
        → Accepts files kind bytes → ¬ Rejects files kind bytes r }
{}

/// Of the files that are taken one at most is the first that isn't accepted, it has one refusal, and there is
/// none where all are accepted.
pub fn one_first()
    ensures one { (files : Files) (r s : RefusalValue) (takes : List Taken)
        → FirstRefused files r takes → FirstRefused files s takes → r ≡ s }
    ensures never_both { (files : Files) (r : RefusalValue) (takes : List Taken)
        → FirstRefused files r takes → ¬ AreAccepted takes files }
{}
