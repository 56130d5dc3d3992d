// The domains that segments name, with their sizes.
ghost use Rattle.std.specs.Prelude.{◌≡◌, All, IfOk, OnOk};
ghost use Rattle.geom_check.specs.Shift.{IsScale};
ghost use Rattle.geom_check.specs.Placed.{IsReadableMaterial};
ghost use Rattle.geom_check.specs.Domains.{domain_numbers, with_domain};
ghost use Rattle.geom_check.specs.Geometry.{domain_size, domains_of};

use crate::kinds::{Domain, Segment};
use crate::scale::Scale;
use in2d_reader::MaterialRow;
use std::alloc::{AllocError as OutOfMemory, Global};
use std::collections::BTreeSet;

/// Adds the number of a domain, unless it is 0, which stands for the outside.
fn add_domain(numbers: &mut BTreeSet<u32>, number: u32) -> Result<(), OutOfMemory>
    ensures { OnOk result (numbers.new.keys ≡ with_domain numbers.old.keys number) }
{
    if number != 0 {
        numbers.insert(number)?;
    }
    Ok(())
}

/// The numbers above 0 on the sides of segments, each once, rising.
pub fn domain_numbers(alloc: Global, segments: &[Segment]) -> Result<Vec<u32>, OutOfMemory>
    ensures { IfOk result (λ v. v.items ≡ domain_numbers segments.now) }
{
    let mut numbers = BTreeSet::new(alloc);
    for segment in segments {
        add_domain(&mut numbers, segment.left)?;
        add_domain(&mut numbers, segment.right)?;
    }
    numbers.into_iter().collect(alloc)
}

/// The greatest size of a domain: that of the last material row that names it.
fn domain_size(scale: &Scale, materials: &[MaterialRow], domain: u32) -> Option<u64>
    requires readable { All IsReadableMaterial materials.now }
    requires scale { IsScale scale.now }
    ensures { result ≡ domain_size scale.now.shift materials.now domain }
{
    let mut size = None;
    for row in materials {
        if row.domain == domain {
            size = scale.size(row.maxh);
        }
    }
    size
}

/// The domains that segments name, rising, with their sizes.
pub fn domains(
    alloc: Global,
    scale: &Scale,
    segments: &[Segment],
    materials: &[MaterialRow],
) -> Result<Vec<Domain>, OutOfMemory>
    requires readable { All IsReadableMaterial materials.now }
    requires scale { IsScale scale.now }
    ensures { IfOk result (λ v. v.items ≡ domains_of scale.now.shift segments.now materials.now) }
{
    let numbers = domain_numbers(alloc, segments)?;
    let mut domains = Vec::with_capacity(alloc, numbers.len())?;
    for number in &numbers {
        domains.push(Domain {
            number: *number,
            maxh: domain_size(scale, materials, *number),
        })?;
    }
    Ok(domains)
}
