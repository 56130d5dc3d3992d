// The text of a log.

ghost use Rattle.std.specs.Prelude.{◌≡◌, ◌∷◌, IfOk};
ghost use Rattle.std.specs.List.{flat_map};
ghost use Rattle.text_rows.specs.Rows.{Appends, spaced};
ghost use Rattle.run_log.specs.Log.{heading, ending, run_row, limit_word, opening_points, row_counts, domain_row, place_words, point_row, line_row, counted_numbers, counted_places, counted_elements, base_numbers, application_row, front_row, domain_text, log_text};

use super::end_word::write_end;
use grid_geom::{Element, Point};
use mesh_run::{Application, DomainRun, Options, WholeRun};
use std::alloc::{AllocError, Global};
use text_rows::{write_number, write_row, write_spaced, write_spaced_signed};

/// The bytes of the log of the run `w`: words separated by one space, and for each domain its
/// opening points and lines, its applications and the front lines that are left, each on a line.
pub fn write_log(alloc: Global, w: &WholeRun) -> Result<Vec<u8>, AllocError>
    ensures { IfOk result (λ bytes. bytes.items ≡ log_text w.now) }
{
    let mut text = String::new(alloc);
    write_heading(&mut text)?;
    write_run(&mut text, &w.shift, &w.options)?;
    write_domains(&mut text, w.domains.as_slice())?;
    write_ending(&mut text)?;
    Ok(text.into_bytes())
}

#[tactic(auto, unfolding(crate::specs::Log::heading))]
fn write_heading(text: &mut String) -> Result<(), AllocError>
    ensures { Appends result text.old text.new heading }
{
    text.push_str("netmeshlog 1\n")?;
    Ok(())
}

#[tactic(auto, unfolding(crate::specs::Log::ending))]
fn write_ending(text: &mut String) -> Result<(), AllocError>
    ensures { Appends result text.old text.new ending }
{
    text.push_str("end\n")?;
    Ok(())
}

#[tactic(auto, unfolding(crate::specs::Log::run_row))]
fn write_run(text: &mut String, shift: &i32, options: &Options) -> Result<(), AllocError>
    ensures { Appends result text.old text.new (run_row shift.now options.now) }
{
    text.push_str("run ")?;
    write!(text, "{shift}")?;
    write_spaced(
        text,
        &[
            options.greatest,
            options.grading as u64,
            options.last as u64,
        ],
    )?;
    text.push_str(" ")?;
    write_limit(text, options.limit)?;
    text.push_str("\n")?;
    Ok(())
}

fn write_limit(text: &mut String, limit: Option<u64>) -> Result<(), AllocError>
    ensures { Appends result text.old text.new (limit_word limit) }
{
    match limit {
        Some(most) => write_number(text, most)?,
        None => text.push_str("-")?,
    }
    Ok(())
}

fn write_domains(text: &mut String, domains: &[DomainRun]) -> Result<(), AllocError>
    ensures { Appends result text.old text.new (flat_map domain_text domains.now) }
{
    for run in domains {
        write_domain(text, run)?;
    }
    Ok(())
}

fn write_domain(text: &mut String, run: &DomainRun) -> Result<(), AllocError>
    ensures { Appends result text.old text.new (domain_text run.now) }
{
    write_domain_row(text, run)?;
    write_points(text, opened(run))?;
    write_lines(text, run.lines.as_slice())?;
    write_applications(text, run.applications.as_slice())?;
    write_front(text, run.front.as_slice())?;
    Ok(())
}

fn opened(run: &DomainRun) -> &[Point]
    ensures { result.now ≡ opening_points run.now }
{
    let points = run.points.as_slice();
    if run.opened < points.len() {
        &points[..run.opened]
    } else {
        points
    }
}

#[tactic(auto, unfolding(crate::specs::Log::domain_row))]
fn write_domain_row(text: &mut String, run: &DomainRun) -> Result<(), AllocError>
    ensures { Appends result text.old text.new (domain_row run.now) }
{
    text.push_str("domain")?;
    write_row_counts(text, run)?;
    text.push_str(" ")?;
    write_end(text, &run.end)?;
    text.push_str("\n")?;
    Ok(())
}

fn write_row_counts(text: &mut String, run: &DomainRun) -> Result<(), AllocError>
    ensures { Appends result text.old text.new (spaced (run.now.domain ∷ row_counts run.now)) }
{
    write_spaced(
        text,
        &[
            run.domain as u64,
            opened(run).len() as u64,
            run.lines.as_slice().len() as u64,
            run.applications.as_slice().len() as u64,
            run.front.as_slice().len() as u64,
        ],
    )?;
    Ok(())
}

fn write_points(text: &mut String, points: &[Point]) -> Result<(), AllocError>
    ensures { Appends result text.old text.new (flat_map point_row points.now) }
{
    for point in points {
        write_point(text, point)?;
    }
    Ok(())
}

fn write_point(text: &mut String, point: &Point) -> Result<(), AllocError>
    ensures { Appends result text.old text.new (point_row point.now) }
{
    text.push_str("p")?;
    write_place(text, point)?;
    text.push_str("\n")?;
    Ok(())
}

fn write_place(text: &mut String, point: &Point) -> Result<(), AllocError>
    ensures { Appends result text.old text.new (place_words point.now) }
{
    write_spaced_signed(text, &[point.x, point.y])?;
    Ok(())
}

fn write_lines(text: &mut String, lines: &[(u64, u64)]) -> Result<(), AllocError>
    ensures { Appends result text.old text.new (flat_map line_row lines.now) }
{
    for line in lines {
        write_row(text, "l", &[line.0, line.1], &[])?;
    }
    Ok(())
}

fn write_applications(text: &mut String, applications: &[Application]) -> Result<(), AllocError>
    ensures { Appends result text.old text.new (flat_map application_row applications.now) }
{
    for application in applications {
        write_application(text, application)?;
    }
    Ok(())
}

fn write_application(text: &mut String, application: &Application) -> Result<(), AllocError>
    ensures { Appends result text.old text.new (application_row application.now) }
{
    text.push_str("a")?;
    write_base(text, application)?;
    write_numbers(text, application.points.as_slice())?;
    write_places(text, application.made.as_slice())?;
    write_elements(text, application.elements.as_slice())?;
    text.push_str("\n")?;
    Ok(())
}

// The class, the base line and the rule.
fn write_base(text: &mut String, application: &Application) -> Result<(), AllocError>
    ensures { Appends result text.old text.new (spaced (base_numbers application.now)) }
{
    let class = application.class as u64;
    write_spaced(text, &[class, application.line, application.rule as u64])?;
    Ok(())
}

fn write_numbers(text: &mut String, numbers: &[u64]) -> Result<(), AllocError>
    ensures { Appends result text.old text.new (counted_numbers numbers.now) }
{
    write_spaced(text, &[numbers.len() as u64])?;
    write_spaced(text, numbers)?;
    Ok(())
}

fn write_places(text: &mut String, points: &[Point]) -> Result<(), AllocError>
    ensures { Appends result text.old text.new (counted_places points.now) }
{
    write_spaced(text, &[points.len() as u64])?;
    for point in points {
        write_place(text, point)?;
    }
    Ok(())
}

fn write_elements(text: &mut String, elements: &[Element]) -> Result<(), AllocError>
    ensures { Appends result text.old text.new (counted_elements elements.now) }
{
    write_spaced(text, &[elements.len() as u64])?;
    for element in elements {
        write_numbers(text, element.as_slice())?;
    }
    Ok(())
}

fn write_front(text: &mut String, lines: &[(u64, u64, u64)]) -> Result<(), AllocError>
    ensures { Appends result text.old text.new (flat_map front_row lines.now) }
{
    for line in lines {
        write_row(text, "f", &[line.0, line.1, line.2], &[])?;
    }
    Ok(())
}
