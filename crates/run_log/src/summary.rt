// The line that sums a run up.

ghost use Rattle.std.specs.Prelude.{◌≡◌, IfOk};
ghost use Rattle.text_rows.specs.Rows.{Appends};
ghost use Rattle.run_log.specs.Summary.{application_count, front_count, named_count, summary_line};

use super::end_word::write_end;
use mesh_run::{DomainRun, WholeRun};
use std::alloc::{AllocError, Global};
use text_rows::write_number;
use vol_format::Mesh;

/// The line that sums up the run `w`, whose mesh is `m`: how it ended, and how many domains,
/// applications, points, elements and front lines it has.
pub fn write_summary(alloc: Global, w: &WholeRun, m: &Mesh) -> Result<Vec<u8>, AllocError>
    ensures { IfOk result (λ bytes. bytes.items ≡ summary_line w.now m.now) }
{
    let domains = w.domains.as_slice();
    let mut text = String::new(alloc);
    write_end(&mut text, &w.end)?;
    write_count(&mut text, " domains ", domains.len() as u128)?;
    write_count(&mut text, " applications ", applications(domains))?;
    write_count(&mut text, " points ", m.points.as_slice().len() as u128)?;
    write_count(&mut text, " elements ", m.elements.as_slice().len() as u128)?;
    write_count(&mut text, " front ", front_lines(domains))?;
    text.push_str("\n")?;
    Ok(text.into_bytes())
}

#[tactic(auto, unfolding(crate::specs::Summary::named_count))]
fn write_count(text: &mut String, word: &str, count: u128) -> Result<(), AllocError>
    ensures { Appends result text.old text.new (named_count word.now count) }
{
    text.push_str(word)?;
    write!(text, "{count}")?;
    Ok(())
}

fn applications(domains: &[DomainRun]) -> u128
    ensures { result ≡ application_count domains.now }
{
    let mut count = 0;
    for run in domains {
        count += run.applications.as_slice().len() as u128;
    }
    count
}

fn front_lines(domains: &[DomainRun]) -> u128
    ensures { result ≡ front_count domains.now }
{
    let mut count = 0;
    for run in domains {
        count += run.front.as_slice().len() as u128;
    }
    count
}
