// Rules of the tests' texts.
ghost use Rattle.std.specs.Prelude.{◌≤◌, length, IfOk};
ghost use Rattle.rule_reader.specs.Normal.{CanPrint};

use rule_reader::{Rules, read_rules};
use std::alloc::Global;
use std::test::Fail;

/// The rules of a text.
pub fn read(alloc: Global, text: &[u8]) -> Result<Rules, Fail>
    requires { length text.now ≤ 1048576 }
    ensures { IfOk result CanPrint }
{
    match read_rules(alloc, text) {
        Ok(rules) => Ok(rules),
        Err(_) => Err("the text is admitted".into()),
    }
}
