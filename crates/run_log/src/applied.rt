//! The applications of a log.

ghost use Rattle.std.specs.Prelude.{◌≡◌, ◌≤◌, ◌^◌, IfOk, length};
ghost use Rattle.run_log.specs.Grammar.{application, applications, all_points};
ghost use Rattle.run_log.specs.Reading.{Gives, read};

use crate::lists::{Elements, Places, PointNumbers, counted};
use crate::reader::Reader;
use crate::refusal::LogRefusal;
use crate::words::GREATEST_WHOLE;
use grid_geom::Point;
use mesh_run::{Application, Applications};
use std::alloc::Global;

/// An application, where there are so many points.
#[tactic(auto, using(crate::proofs::Steps::application_reads), unfolding(crate::proofs::Steps::application_at))]
fn application(
    alloc: Global,
    reader: &mut Reader<'_>,
    points: usize,
) -> Result<Application, LogRefusal>
    requires { points ≤ 2 ^ 63 }
    ensures { Gives result reader.new (read (application points) reader.old) }
{
    reader.fixed(b"a")?;
    let class = reader.number(1, 16)? as u32;
    let line = reader.number(1, GREATEST_WHOLE)?;
    let rule = reader.number(1, 256)? as usize;
    let so_far = points as u64;
    let mapped = counted::<PointNumbers>(alloc, reader, 16, so_far)?;
    let made = counted::<Places>(alloc, reader, 8, so_far)?;
    let all = so_far + made.as_slice().len() as u64;
    let elements = counted::<Elements>(alloc, reader, 8, all)?;
    Ok(Application {
        class,
        line,
        rule,
        points: mapped,
        made,
        elements,
    })
}

/// So many applications, whose new points are put behind the points so far.
pub fn applications(
    alloc: Global,
    reader: &mut Reader<'_>,
    count: u64,
    points: &mut Vec<Point>,
) -> Result<Applications, LogRefusal>
    ensures read { Gives result reader.new
        (read (applications count (length points.old.items)) reader.old) }
    ensures points { IfOk result (λ made. points.new.items ≡ all_points points.old.items made) }
{
    let mut made = Vec::new(alloc);
    while (made.len() as u64) < count {
        let next = application(alloc, reader, points.len())?;
        points.extend_from_slice(next.made.as_slice())?;
        made.push(next)?;
    }
    Ok(Applications::from_vec(made))
}
