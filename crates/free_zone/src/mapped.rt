// Which front lines stand at lines of a rule.
ghost use Rattle.std.specs.Prelude.{◌≡◌, ◌↔◌, IsTrue};
ghost use Rattle.free_zone.specs.InTheWay.{nth, mapped_pair, IsMappedLine};

use rule_maps::Compiled;
use rule_reader::MapLine;

/// The number of the front point that is mapped as the rule's point `k`, counted from 1.
fn number_at(mapped: &[u64], k: u32) -> u64
    ensures { result ≡ nth mapped.now k }
{
    let place = (k as usize).saturating_sub(1);
    mapped.get(place).copied().unwrap_or(0)
}

/// Whether the rule's line is mapped to these ends.
fn stands_at(line: &MapLine, mapped: &[u64], ends: &(u64, u64)) -> bool
    ensures { IsTrue result ↔ (mapped_pair mapped.now line.now ≡ ends.now) }
{
    (number_at(mapped, line.i), number_at(mapped, line.j)) == *ends
}

/// Whether the rule maps a line to these ends.
pub fn is_mapped(c: &Compiled<'_>, mapped: &[u64], ends: &(u64, u64)) -> bool
    ensures { IsTrue result ↔ IsMappedLine c.now mapped.now ends.now }
{
    let lines = c.rule().lines.as_slice();
    lines.iter().any(|line| stands_at(line, mapped, ends))
}
