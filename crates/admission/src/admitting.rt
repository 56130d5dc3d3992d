// Elements admitted to a front, one after another.
ghost use Rattle.std.specs.Prelude.{◌≡◌, ◌⊎◌, ◌++◌, length, All, IfOk, IfErr, OnOk, List, map, None};
ghost use Rattle.std.specs.List.{IsDistinct};
ghost use Rattle.grid_geom.specs.Bounds.{IsOnGrid};
ghost use Rattle.grid_geom.specs.Area.{shoelace};
ghost use Rattle.grid_geom.specs.Closed.{same_point};
ghost use Rattle.front_chain.specs.Front.{FrontState, IsFrontState, edges_of};
ghost use Rattle.admission.specs.Triangles.{IsTriangleOnGrid};
ghost use Rattle.admission.specs.Around.{all_points, AreListed, shape_at, IsShapeIn, lines_near};
ghost use Rattle.admission.specs.Admission.{entered, MayFollow, IsRefusal};
ghost use Rattle.admission.specs.Kept.{IsViewOf, IsWhole};
ghost use Rattle.admission.specs.declared.refusal.GlueRefusal.TheVariants.{Memory as NoMemory};

use crate::near::lines_near;
use crate::refusal::{Admitted, GlueRefusal};
use crate::shapes::{box_of, shapes_of};
use crate::view::{View, verdict};
use front_chain::Front;
use grid_geom::{Bounds, Element, Point};
use list_of::List;
use std::alloc::{AllocError as OutOfMemory, Global};

/// The front near a box, before any element is glued.
fn view_of(alloc: Global, front: &Front, made: &[Point], near: &Bounds) -> Result<View, OutOfMemory>
    requires made_on { All IsOnGrid made.now }
    requires new_places { IsDistinct same_point (front.now.points ++ made.now) }
    ensures kept { IfOk result (λ v. IsViewOf front.now near.now (entered front.now made.now) v) }
    ensures near { IfOk result (λ v. v.near ≡ near.now) }
{
    let lines = lines_near(alloc, front, near)?;
    Ok(View {
        near: *near,
        lines,
        next: front.next_number(),
        left: front.area(),
        taken: Vec::new(alloc),
    })
}

/// The first refusal of the elements, if one of them may not be glued after those before it.
fn first_refusal(
    alloc: Global,
    front: &Front,
    made: &[Point],
    elements: &[Element],
) -> Result<Option<GlueRefusal>, OutOfMemory>
    requires made_on { All IsOnGrid made.now }
    requires new_places { IsDistinct same_point (front.now.points ++ made.now) }
    requires three { All (λ ns. length ns ≡ 3) elements.now }
    requires listed { All (AreListed (length (front.now.points ++ made.now))) elements.now }
    ensures { IfOk result (IsWhole (entered front.now made.now) elements.now) }
{
    let shapes = shapes_of(alloc, front, made, elements)?;
    let near = box_of(&shapes);
    let mut view = view_of(alloc, front, made, &near)?;
    for k in 0..elements.len() {
        let shape = shapes[k];
        let found = verdict(front, &view, &shape, k as u64 + 1);
        if found.is_some() {
            return Ok(found);
        }
        view.glue(&shape)?;
    }
    Ok(None)
}

/// The lists, copied.
fn copied(alloc: Global, made: &[Point], elements: &[Element]) -> Result<Admitted, OutOfMemory>
    ensures made { IfOk result (λ a. a.made ≡ made.now) }
    ensures elements { IfOk result (λ a. a.elements ≡ elements.now) }
{
    let mut copies = Vec::with_capacity(alloc, elements.len())?;
    for element in elements {
        copies.push(List::from_vec(element.as_slice().to_vec(alloc)?))?;
    }
    Ok(Admitted {
        made: List::from_vec(made.to_vec(alloc)?),
        elements: List::from_vec(copies),
    })
}

/// The new points and the elements, where the elements may be glued to the front one after another;
/// else why not. Numbers after the front's points name the new points in their order. Lines that
/// elements of the call join count for those after them.
///
/// The new points are grid points at different places, none of them that of a point of the front.
/// Each element has three corners.
///
/// Errors: the first element that may not be glued after those before it, and why; or want of
/// memory.
pub fn admit(
    alloc: Global,
    front: &Front,
    made: &[Point],
    elements: &[Element],
) -> Result<Admitted, GlueRefusal>
    requires made_on { All IsOnGrid made.now }
    requires new_places { IsDistinct same_point (front.now.points ++ made.now) }
    requires three { All (λ ns. length ns ≡ 3) elements.now }
    requires listed { All (AreListed (length (front.now.points ++ made.now))) elements.now }
    ensures made { IfOk result (λ a. a.made ≡ made.now) }
    ensures elements { IfOk result (λ a. a.elements ≡ elements.now) }
    ensures may { OnOk result (MayFollow (entered front.now made.now) elements.now) }
    ensures refused { IfErr result (λ r. (r ≡ NoMemory) ⊎
        IsRefusal (entered front.now made.now) elements.now 1 r) }
{
    match first_refusal(alloc, front, made, elements) {
        Err(_) => Err(GlueRefusal::Memory),
        Ok(Some(refusal)) => Err(refusal),
        Ok(None) => match copied(alloc, made, elements) {
            Err(_) => Err(GlueRefusal::Memory),
            Ok(admitted) => Ok(admitted),
        },
    }
}
