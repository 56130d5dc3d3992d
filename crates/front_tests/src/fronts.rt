// Two fronts: the triangle (0, 0), (640000, 0), (0, 640000), and a square of three units of 64000 with a
// hole of one unit in its middle.
ghost use Rattle.std.specs.Prelude.{◌≡◌, [], ◌∷◌, IfOk};
ghost use Rattle.state_law.specs.Worked.{worked};
ghost use Rattle.front_chain.specs.Front.{numbered_from};
ghost use Rattle.front_chain.specs.Worked.{triangle_points, ring_points, ring_lines};

use front_chain::Front;
use grid_geom::Point;
use std::alloc::{AllocError as OutOfMemory, Global};

/// The front of the triangle.
pub fn triangle(alloc: Global) -> Result<Front, OutOfMemory>
    ensures points { IfOk result (λ f. f.points ≡ triangle_points) }
    ensures lines { IfOk result (λ f. f.lines ≡ worked.front) }
{
    Front::open(
        alloc,
        &[
            Point { x: 0, y: 0 },
            Point { x: 640_000, y: 0 },
            Point { x: 0, y: 640_000 },
        ],
        &[(1, 2), (2, 3), (3, 1)],
    )
}

/// The front of the square with a hole.
pub fn ring(alloc: Global) -> Result<Front, OutOfMemory>
    ensures points { IfOk result (λ f. f.points ≡ ring_points) }
    ensures lines { IfOk result (λ f. f.lines ≡ numbered_from 1 ring_lines) }
{
    Front::open(
        alloc,
        &[
            Point { x: 0, y: 0 },
            Point { x: 192_000, y: 0 },
            Point {
                x: 192_000,
                y: 192_000,
            },
            Point { x: 0, y: 192_000 },
            Point {
                x: 64_000,
                y: 64_000,
            },
            Point {
                x: 128_000,
                y: 64_000,
            },
            Point {
                x: 128_000,
                y: 128_000,
            },
            Point {
                x: 64_000,
                y: 128_000,
            },
        ],
        &[
            (1, 2),
            (2, 3),
            (3, 4),
            (4, 1),
            (6, 5),
            (7, 6),
            (8, 7),
            (5, 8),
        ],
    )
}
