//! The rule file: it is taken and read.

ghost use Rattle.std.specs.Prelude.{◌≡◌, ◌≤◌, IfOk, IfErr};
ghost use Rattle.folder_io.specs.Causes.{Told};
ghost use Rattle.rule_reader.specs.Normal.{CanPrint};
ghost use Rattle.netmesh_cli.specs.Accepted.{AreRules};
ghost use Rattle.netmesh_cli.specs.Kinds.{RulesRejects};
ghost use Rattle.netmesh_cli.specs.Taking.{TakeRefused, rule_file_at};
ghost use Rattle.netmesh_cli.specs.Held.{HoldsRules};
ghost use Rattle.netmesh_cli.specs.BytesRefused.{MayRefuse};

use super::{FILE_LIMIT, Refusal, files};
use folder_io::Folder;
use rule_reader::{RuleRefusal, Rules, read_rules};
use std::alloc::Global;

/// Reads a rule file.
fn read_file(alloc: Global, bytes: &[u8]) -> Result<Rules, Refusal>
    ensures accepted { IfOk result (AreRules bytes.now) }
    ensures printable { IfOk result CanPrint }
    ensures refused { IfErr result (MayRefuse (RulesRejects bytes.now)) }
{
    match read_rules(alloc, bytes) {
        Ok(rules) => Ok(rules),
        Err(RuleRefusal::Memory) => Err(Refusal::Memory),
        Err(fault) => Err(Refusal::Rules(fault)),
    }
}

/// Takes a rule file and reads it.
pub fn take_rules<F: Folder>(alloc: Global, folder: &mut F, name: &str) -> Result<Rules, Refusal>
    ensures held { (F.state folder.new).held ≡ (F.state folder.old).held }
    ensures accepted { IfOk result (λ rules. Told (F.state folder.old).held
        (λ files. HoldsRules files name.now rules)) }
    ensures printable { IfOk result CanPrint }
    ensures refused { IfErr result (λ refusal. TakeRefused
        (F.state folder.old) (F.state folder.new) refusal (rule_file_at name.now)) }
    ensures rises { (F.state folder.old).faults ≤ (F.state folder.new).faults }
{
    let bytes = files::take(alloc, folder, name, FILE_LIMIT)?;
    read_file(alloc, &bytes)
}
