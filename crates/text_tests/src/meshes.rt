ghost use Rattle.std.specs.Prelude.{◌≡◌, IfOk, pos};
ghost use Rattle.vol_format.specs.Vol.{IsShift};

use grid_geom::{Element, Point, Points};
use std::alloc::{AllocError, Global};
use std::test::Fail;
use vol_format::{
    EdgeRow, EdgeRows, Mesh, MeshElement, MeshElements, VolRefusal, read_vol, write_vol,
};

fn points(alloc: Global, places: &[(i64, i64)]) -> Result<Points, AllocError> {
    let mut points = Vec::new(alloc);
    for place in places {
        points.push(Point {
            x: place.0,
            y: place.1,
        })?;
    }
    Ok(Points::from_vec(points))
}

fn triangle(alloc: Global) -> Result<Mesh, AllocError>
    ensures { IfOk result (λ m. m.shift ≡ pos 4) }
{
    let mut edges = Vec::new(alloc);
    for (segment, a, b) in [(1, 1, 2), (2, 2, 3), (3, 3, 1)] {
        edges.push(EdgeRow {
            bc: segment,
            a,
            b,
            left: 1,
            right: 0,
            segment,
        })?;
    }
    let corners = Element::from_vec(vec![in alloc; 1, 2, 3]?);
    Ok(Mesh {
        shift: 4,
        points: points(alloc, &[(0, 0), (640000, 0), (0, 640000)])?,
        edges: EdgeRows::from_vec(edges),
        elements: MeshElements::from_vec(vec![in alloc; MeshElement { domain: 1, corners }]?),
    })
}

// The text of a mesh of one point.
fn point_text(alloc: Global, shift: i32, place: (i64, i64)) -> Result<Vec<u8>, AllocError>
    requires { IsShift shift }
{
    let mesh = Mesh {
        shift,
        points: points(alloc, &[place])?,
        edges: EdgeRows::from_vec(Vec::new(alloc)),
        elements: MeshElements::from_vec(Vec::new(alloc)),
    };
    write_vol(alloc, &mesh)
}

#[test]
fn writes_one_triangle(rt: HostRuntime) -> Result<(), Fail> {
    let mesh = triangle(rt.alloc())?;
    let written = "mesh3d\ndimension\n2\ngeomtype\n0\nsurfaceelements\n1\n1 1 0 0 3 1 2 3\n\
        volumeelements\n0\nedgesegmentsgi2\n3\n1 0 1 2 0 0 1 0 1 0 1 0\n\
        2 0 2 3 0 0 1 0 2 0 2 0\n3 0 3 1 0 0 1 0 3 0 3 0\npoints\n3\n\
        0.0000000000 0.0000000000 0\n1.0000000000 0.0000000000 0\n\
        0.0000000000 1.0000000000 0\nendmesh\n";
    assert_eq!(rt;
        write_vol(rt.alloc(), &mesh)?.as_slice(),
        written.as_bytes()
    );
    Ok(())
}

#[test]
fn writes_the_decimals_of_a_shift(rt: HostRuntime) -> Result<(), Fail> {
    let coarse = point_text(rt.alloc(), -6, (-1048576, 64))?;
    let whole = "mesh3d\ndimension\n2\ngeomtype\n0\nsurfaceelements\n0\nvolumeelements\n0\n\
        edgesegmentsgi2\n0\npoints\n1\n-16384000000 1000000 0\nendmesh\n";
    assert_eq!(rt; coarse.as_slice(), whole.as_bytes());
    let fine = point_text(rt.alloc(), 8, (-1, 1048576))?;
    let decimals = "mesh3d\ndimension\n2\ngeomtype\n0\nsurfaceelements\n0\nvolumeelements\n0\n\
        edgesegmentsgi2\n0\npoints\n1\n-0.00000000015625 0.00016384000000 0\nendmesh\n";
    assert_eq!(rt; fine.as_slice(), decimals.as_bytes());
    Ok(())
}

// A text of one element at the shift -6, where a grid step is 15625, word by word.
const WORDS: [&str; 31] = [
    "mesh3d",
    "dimension",
    "2",
    "geomtype",
    "0",
    "surfaceelements",
    "1",
    "1",
    "1",
    "0",
    "0",
    "3",
    "1",
    "2",
    "3",
    "volumeelements",
    "0",
    "edgesegmentsgi2",
    "0",
    "points",
    "3",
    "0",
    "0",
    "0",
    "15625",
    "0",
    "0",
    "0",
    "15625",
    "0",
    "endmesh",
];

// This text with other words in the place of word number `at`.
fn with(alloc: Global, at: usize, words: &str) -> Result<String, AllocError> {
    let mut text = String::new(alloc);
    for (before, word) in WORDS.iter().enumerate() {
        text.push_str(if before.wrapping_add(1) == at {
            words
        } else {
            word
        })?;
        text.push_str("\r\n")?;
    }
    Ok(text)
}

fn refusal(alloc: Global, at: usize, words: &str) -> Option<VolRefusal> {
    match with(alloc, at, words) {
        Ok(text) => read_vol(alloc, text.as_bytes(), -6).err(),
        Err(_) => Some(VolRefusal::Memory),
    }
}

#[test]
fn refusals(rt: HostRuntime) {
    let syntax = |word: u64| Some(VolRefusal::Syntax { word });
    let number = |word: u64| Some(VolRefusal::Number { word });
    let bad_index = |word: u64| Some(VolRefusal::BadIndex { word });
    assert!(rt; refusal(rt.alloc(), 1, "mesh") == syntax(1));
    assert!(rt; refusal(rt.alloc(), 3, "3") == number(3));
    assert!(rt; refusal(rt.alloc(), 7, "16777217") == Some(VolRefusal::TooMany { word: 7 }));
    assert!(rt; refusal(rt.alloc(), 7, "00000016777217") == number(7));
    assert!(rt; refusal(rt.alloc(), 7, "2") == number(16));
    assert!(rt; refusal(rt.alloc(), 7, "0") == syntax(8));
    assert!(rt; refusal(rt.alloc(), 9, "2") == number(9));
    assert!(rt; refusal(rt.alloc(), 13, "0") == bad_index(13));
    assert!(rt; refusal(rt.alloc(), 15, "4") == bad_index(15));
    assert!(rt; refusal(rt.alloc(), 13, "0 2 3 volumeelements x") == number(17));
    assert!(rt; refusal(rt.alloc(), 22, "15624") == number(22));
    assert!(rt; refusal(rt.alloc(), 22, "16384015625") == number(22));
    assert!(rt; refusal(rt.alloc(), 24, "1") == number(24));
    assert!(rt; refusal(rt.alloc(), 31, "# endmesh") == syntax(31));
    assert!(rt; refusal(rt.alloc(), 31, "endmesh endmesh") == syntax(32));
}

#[test]
fn reads_other_spellings(rt: HostRuntime) -> Result<(), Fail> {
    assert!(rt; refusal(rt.alloc(), 3, "02 # a plane") == None);
    let text = with(rt.alloc(), 25, "-1.6384e10")?;
    let mesh = read_vol(rt.alloc(), text.as_bytes(), -6)
        .ok()
        .ok_or("the text is a mesh's")?;
    let [_, left, _] = mesh.points.as_slice() else {
        return Err("there are three points".into());
    };
    assert!(rt; left.x == -1_048_576 && left.y == 0);
    Ok(())
}
