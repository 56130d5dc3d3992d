// What is kept of a front while elements are admitted, and the tests of one element.
ghost use Rattle.std.specs.Prelude.{◌≡◌, ◌↔◌, ◌+◌, ◌<◌, ◌^◌, All, IsTrue, IfOk, OnOk, pos, ◌+ℤ◌, ◌≤ℤ◌, ℕ, List};
ghost use Rattle.std.specs.Int.{w128};
ghost use Rattle.std.specs.Prelude.{FitsSigned};
ghost use Rattle.grid_geom.specs.Area.{shoelace};
ghost use Rattle.grid_geom.specs.Polygon.{sides};
ghost use Rattle.grid_geom.specs.Winding.{wind};
ghost use Rattle.grid_geom.specs.declared.Bounds.{Bounds as AnyBounds};
ghost use Rattle.wind_law.specs.Centre.{centre};
ghost use Rattle.wind_law.specs.Grid.{AreOnGrid};
ghost use Rattle.state_law.specs.State.{State, glued};
ghost use Rattle.front_chain.specs.Front.{FrontState, edges_of};
ghost use Rattle.admission.specs.Triangles.{corners_of_triangle, IsTriangleOnGrid, IsLineOnGrid};
ghost use Rattle.admission.specs.Around.{IsShapeIn, IsShapeOf};
ghost use Rattle.admission.specs.Kept.{IsViewOf, IsViewAfter, IsVerdict};

use crate::glue::glue_sides;
use crate::lines::Hindrances;
use crate::near::winding_of;
use crate::refusal::GlueRefusal;
use crate::shapes::Shape;
use crate::triangle::{Line, Triangle};
use front_chain::Front;
use grid_geom::{Bounds, Edge};
use std::alloc::{AllocError as OutOfMemory, Global};
use wind_law::winding;

/// The front as the elements so far have left it: its lines near a box that holds all elements, the
/// next line number, its doubled area, and the sides of the elements so far.
#[derive(Debug, Drop)]
pub struct View {
    pub near: Bounds,
    pub lines: Vec<Line>,
    pub next: u64,
    pub left: i128,
    pub taken: Vec<Edge>,
}

/// Whether the front, less the sides taken, winds once round the triangle's centre.
fn winds_once(front: &Front, taken: &[Edge], t: &Triangle) -> bool
    requires corners_on { IsTriangleOnGrid t.now }
    requires taken_on { AreOnGrid taken.now }
    ensures { IsTrue result ↔ (wind (centre (corners_of_triangle t.now)) (edges_of front.now) ≡
        wind (centre (corners_of_triangle t.now)) taken.now +ℤ pos 1) }
{
    let q = t.centre();
    winding_of(front, &q) == winding(taken, &q) as i128 + 1
}

impl View {
    /// Glues the element: each of its sides that is a line leaves, and each other side joins
    /// reversed with the next number.
    ///
    /// Errors: want of memory, and then some sides may be glued and others not.
    pub fn glue(&mut self, shape: &Shape) -> Result<(), OutOfMemory>
        requires corners_on { IsTriangleOnGrid shape.now.t }
        requires room { self.old.next + 3 < 2 ^ 64 }
        requires positive { pos 0 ≤ℤ shoelace (sides (corners_of_triangle shape.now.t)) }
        requires covered { shoelace (sides (corners_of_triangle shape.now.t)) ≤ℤ self.old.left }
        requires fits { FitsSigned w128 self.old.left }
        ensures { OnOk result (IsViewAfter self.old shape.now self.new) }
    {
        self.next = glue_sides(&mut self.lines, self.next, shape)?;
        self.left -= shape.t.double_area();
        let t = &shape.t;
        self.taken.push(Edge { a: t.a, b: t.b })?;
        self.taken.push(Edge { a: t.b, b: t.c })?;
        self.taken.push(Edge { a: t.c, b: t.a })?;
        Ok(())
    }
}

/// Why the element may not be glued, if it may not.
pub fn verdict(front: &Front, view: &View, shape: &Shape, element: u64) -> Option<GlueRefusal>
    requires corners_on { IsTriangleOnGrid shape.now.t }
    requires lines_on { All IsLineOnGrid view.now.lines.items }
    requires taken_on { AreOnGrid view.now.taken.items }
    ensures { (st : State) (box : AnyBounds) → IsViewOf front.now box st view.now →
        IsShapeIn box shape.now →
        IsVerdict st (corners_of_triangle shape.now.t) element result }
{
    let t = &shape.t;
    if !t.turned() {
        return Some(GlueRefusal::Turned { element });
    }
    let least = Hindrances::of_lines(&view.lines, t);
    if let Some(line) = least.met {
        return Some(GlueRefusal::Met { element, line });
    }
    if let Some(point) = least.on_side {
        return Some(GlueRefusal::PointOnSide { element, point });
    }
    if let Some(line) = least.corner_on {
        return Some(GlueRefusal::CornerOnLine { element, line });
    }
    if let Some(line) = least.backwards {
        return Some(GlueRefusal::Backwards { element, line });
    }
    if least.side.is_none() {
        if !winds_once(front, &view.taken, t) {
            return Some(GlueRefusal::Outside {
                element,
                winding: 0,
            });
        }
    }
    if view.left < t.double_area() {
        return Some(GlueRefusal::Area {
            element,
            left: view.left,
        });
    }
    None
}
