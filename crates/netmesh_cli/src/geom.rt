//! The verb `geom`: takes a geometry, and shows its normal text, and as comments its shift and the areas of
//! its domains.

ghost use Rattle.std.specs.Prelude.{◌≡◌, ◌≤◌, ◌++◌, [], IfOk, IfErr};
ghost use Rattle.std.specs.List.{flat_map};
ghost use Rattle.text_rows.specs.Rows.{Appends};
ghost use Rattle.folder_io.specs.Causes.{Told};
ghost use Rattle.in2d_reader.specs.Normal.{CanPrint};
ghost use Rattle.netmesh_cli.specs.Shown.{shift_line, domain_line, shown_text};
ghost use Rattle.netmesh_cli.specs.Jobs.{GeomJob, IsDrawn, IsShown, made_of};
ghost use Rattle.netmesh_cli.specs.Served.{MakeRefused};

use super::areas::double_area;
use super::geometry::{ReadGeometry, take_geometry};
use super::made::Made;
use super::{Outcome, Refusal};
use folder_io::Folder;
use geom_check::{Domain, Geometry};
use in2d_reader::print_in2d;
use std::alloc::{AllocError, Global};
use text_rows::{write_number, write_signed, write_wide};

/// Adds the line of the shift.
fn write_shift(text: &mut String, geometry: &Geometry) -> Result<(), AllocError>
    ensures { Appends result text.old text.new (shift_line geometry.now) }
{
    text.push_str("# shift ")?;
    write_signed(text, &i64::from(geometry.shift()))?;
    text.push_str("\n")?;
    Ok(())
}

/// Adds the line of a domain.
fn write_domain(text: &mut String, geometry: &Geometry, domain: &Domain) -> Result<(), AllocError>
    ensures { Appends result text.old text.new (domain_line geometry.now domain.now) }
{
    text.push_str("# domain ")?;
    write_number(text, u64::from(domain.number))?;
    text.push_str(" area ")?;
    write_wide(text, &double_area(geometry, domain.number))?;
    text.push_str("\n")?;
    Ok(())
}

/// Adds the lines of the domains, by rising number.
fn write_domains(text: &mut String, geometry: &Geometry) -> Result<(), AllocError>
    ensures { Appends result text.old text.new
        (flat_map (domain_line geometry.now) geometry.now.domains) }
{
    let domains = geometry.domains();
    for domain in domains {
        write_domain(text, geometry, domain)?;
    }
    Ok(())
}

/// The comments: the shift, and the area of each domain.
fn comments(alloc: Global, geometry: &Geometry) -> Result<Vec<u8>, AllocError>
    ensures { IfOk result (λ text. text.items
        ≡ shift_line geometry.now
        ++ flat_map (domain_line geometry.now) geometry.now.domains) }
{
    let mut text = String::new(alloc);
    write_shift(&mut text, geometry)?;
    write_domains(&mut text, geometry)?;
    Ok(text.into_bytes())
}

/// The text that is shown of a geometry.
fn shown_text(alloc: Global, read: &ReadGeometry) -> Result<Vec<u8>, AllocError>
    requires { CanPrint read.now.rows }
    ensures { IfOk result (λ text. text.items ≡ shown_text read.now.rows read.now.geometry) }
{
    let mut text = print_in2d(alloc, &read.rows)?;
    text.extend_from_slice(&comments(alloc, &read.geometry)?)?;
    Ok(text)
}

/// What `geom` makes of the geometry that it takes: its text, and no file.
pub fn make_geom<'a, F: Folder>(
    alloc: Global,
    name: &'a str,
    folder: &mut F,
) -> Result<Made<'a>, Refusal>
    ensures held { (F.state folder.new).held ≡ (F.state folder.old).held }
    ensures made { IfOk result (λ made. Told (F.state folder.old).held
        (λ files. IsDrawn name.entry.now files (made_of made))) }
    ensures puts { IfOk result (λ made. made.puts.items ≡ []) }
    ensures ending { IfOk result (λ made. IsShown made.outcome) }
    ensures refused { IfErr result (MakeRefused
        (GeomJob name.entry.now) (F.state folder.old) (F.state folder.new)) }
    ensures rises { (F.state folder.old).faults ≤ (F.state folder.new).faults }
{
    let read = take_geometry(alloc, folder, name)?;
    let answer = shown_text(alloc, &read)?;
    Ok(Made {
        puts: Vec::new(alloc),
        answer,
        outcome: Outcome::Shown,
    })
}
