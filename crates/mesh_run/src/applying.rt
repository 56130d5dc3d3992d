// Applications put on a front, and copied.
ghost use Rattle.std.specs.Prelude.{◌≡◌, ◌++◌, ◌≤◌, length, All, IfOk};
ghost use Rattle.std.specs.List.{AllByRecursion, IsDistinct};
ghost use Rattle.grid_geom.specs.Bounds.{IsOnGrid};
ghost use Rattle.grid_geom.specs.Closed.{same_point};
ghost use Rattle.state_law.specs.State.{IsListed};
ghost use Rattle.front_chain.specs.Front.{spare_elements, state_of};
ghost use Rattle.admission.specs.Admission.{glued_on, MayFollow};
ghost use Rattle.mesh_run.specs.Reached.{MayBeApplied};
ghost use Rattle.mesh_run.specs.Steps.{applied};
ghost use Rattle.mesh_run.specs.Worklist.{AreTriedFirst};

use super::Application;
use super::worklist::{Worklist, try_first};
use front_chain::Front;
use grid_geom::{Element, Point};
use list_of::List;
use std::alloc::{AllocError as OutOfMemory, Global};

/// Lists new points, with the next numbers.
fn list_points(front: &mut Front, made: &[Point])
    requires spare { length made.now ≤ front.old.spare_points }
    requires on_grid { All IsOnGrid made.now }
    requires new_places { IsDistinct same_point (front.old.points ++ made.now) }
    ensures points { front.new.points ≡ front.old.points ++ made.now }
    ensures lines { front.new.lines ≡ front.old.lines }
    ensures next { front.new.next ≡ front.old.next }
    ensures spare_elements { spare_elements front.new ≡ spare_elements front.old }
{
    for point in made {
        front.add_point(*point);
    }
}

/// Glues elements one after another.
fn glue_elements(front: &mut Front, elements: &[Element])
    requires spare { length elements.now ≤ spare_elements front.old }
    requires triangles { AllByRecursion (λ ns. length ns ≡ 3) elements.now }
    requires listed { AllByRecursion
        (λ ns. AllByRecursion (IsListed (length front.old.points)) ns) elements.now }
    requires may { MayFollow (state_of front.old) elements.now }
    ensures points { front.new.points ≡ front.old.points }
    ensures lines { front.new.lines ≡ (glued_on (state_of front.old) elements.now).front }
    ensures next { front.new.next ≡ (glued_on (state_of front.old) elements.now).next }
{
    for element in elements {
        front.glue(element);
    }
}

/// Lists the new points of an application and glues its elements to the front, in their order. Its new
/// lines are to be tried at the first class.
pub fn put(front: &mut Front, work: &mut Option<Worklist>, application: &Application)
    requires spare_points { length application.now.made ≤ front.old.spare_points }
    requires spare_elements { length application.now.elements ≤ spare_elements front.old }
    requires may { MayBeApplied (state_of front.old) application.now }
    ensures points { front.new.points ≡ front.old.points ++ application.now.made }
    ensures lines { front.new.lines ≡ (applied (state_of front.old) application.now).front }
    ensures next { front.new.next ≡ (applied (state_of front.old) application.now).next }
    ensures tried { AreTriedFirst front.old.next front.new.next work.old work.new }
{
    let first = front.next_number();
    list_points(front, application.made.as_slice());
    glue_elements(front, application.elements.as_slice());
    try_first(work, first, front.next_number());
}

/// The elements, copied.
fn copied(alloc: Global, elements: &[Element]) -> Result<Vec<Element>, OutOfMemory>
    ensures { IfOk result (λ v. v.items ≡ elements.now) }
{
    let mut copies = Vec::with_capacity(alloc, elements.len())?;
    for element in elements {
        copies.push(List::from_vec(element.as_slice().to_vec(alloc)?))?;
    }
    Ok(copies)
}

/// The application, copied.
pub fn copy_of(alloc: Global, application: &Application) -> Result<Application, OutOfMemory>
    ensures { IfOk result (λ a. a ≡ application.now) }
{
    Ok(Application {
        class: application.class,
        line: application.line,
        rule: application.rule,
        points: List::from_vec(application.points.as_slice().to_vec(alloc)?),
        made: List::from_vec(application.made.as_slice().to_vec(alloc)?),
        elements: List::from_vec(copied(alloc, application.elements.as_slice())?),
    })
}
