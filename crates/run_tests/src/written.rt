// The log and the summary line of a run, byte for byte.

use grid_geom::{Element, Point, Points};
use mesh_run::{
    Application, Applications, DomainRun, DomainRuns, Elements, End, FrontRows, OpeningLines,
    Options, Pieces, PointNumbers, WholeRun,
};
use run_log::{write_log, write_summary};
use std::alloc::{AllocError, Global};
use std::test::Fail;
use vol_format::{EdgeRows, Mesh, MeshElements};

const TRIANGLE: [Point; 3] = [
    Point { x: 0, y: 0 },
    Point { x: 640000, y: 0 },
    Point { x: 0, y: 640000 },
];

fn whole_run(alloc: Global, limit: Option<u64>, run: DomainRun) -> Result<WholeRun, AllocError> {
    let end = run.end;
    Ok(WholeRun {
        shift: 4,
        options: Options {
            greatest: 2097152,
            grading: 300,
            last: 10,
            limit,
        },
        pieces: Pieces::from_vec(Vec::new(alloc)),
        domains: DomainRuns::from_vec(vec![in alloc; run]?),
        end,
    })
}

fn mesh(alloc: Global, points: &[Point]) -> Result<Mesh, AllocError> {
    Ok(Mesh {
        shift: 4,
        points: Points::from_vec(points.to_vec(alloc)?),
        edges: EdgeRows::from_vec(Vec::new(alloc)),
        elements: MeshElements::from_vec(Vec::new(alloc)),
    })
}

#[test]
fn writes_a_run_without_applications(rt: HostRuntime) -> Result<(), Fail> {
    let alloc = rt.alloc();
    let run = DomainRun {
        domain: 1,
        points: Points::from_vec(vec![in alloc; TRIANGLE[0], TRIANGLE[1], TRIANGLE[2]]?),
        opened: 3,
        lines: OpeningLines::from_vec(vec![in alloc; (1, 2), (2, 3), (3, 1)]?),
        applications: Applications::from_vec(Vec::new(alloc)),
        front: FrontRows::from_vec(vec![in alloc; (1, 1, 2), (2, 2, 3), (3, 3, 1)]?),
        end: End::Stuck,
    };
    let w = whole_run(alloc, None, run)?;
    let log = "netmeshlog 1\nrun 4 2097152 300 10 -\ndomain 1 3 3 0 3 stuck\np 0 0\np 640000 0\n\
        p 0 640000\nl 1 2\nl 2 3\nl 3 1\nf 1 1 2\nf 2 2 3\nf 3 3 1\nend\n";
    assert_eq!(rt; write_log(alloc, &w)?.as_slice(), log.as_bytes());
    let line = "stuck domains 1 applications 0 points 3 elements 0 front 3\n";
    let m = mesh(alloc, &TRIANGLE)?;
    assert_eq!(rt; write_summary(alloc, &w, &m)?.as_slice(), line.as_bytes());
    Ok(())
}

#[test]
fn writes_an_application_with_new_points(rt: HostRuntime) -> Result<(), Fail> {
    let alloc = rt.alloc();
    let made = Point { x: -64, y: 7 };
    let first = Element::from_vec(vec![in alloc; 1, 2, 4]?);
    let second = Element::from_vec(vec![in alloc; 1, 4, 3]?);
    let application = Application {
        class: 6,
        line: 1,
        rule: 8,
        points: PointNumbers::from_vec(vec![in alloc; 1, 2, 3]?),
        made: Points::from_vec(vec![in alloc; made]?),
        elements: Elements::from_vec(vec![in alloc; first, second]?),
    };
    let run = DomainRun {
        domain: 2,
        points: Points::from_vec(vec![in alloc; TRIANGLE[0], TRIANGLE[1], TRIANGLE[2], made]?),
        opened: 3,
        lines: OpeningLines::from_vec(vec![in alloc; (1, 2), (2, 3), (3, 1)]?),
        applications: Applications::from_vec(vec![in alloc; application]?),
        front: FrontRows::from_vec(vec![in alloc; (2, 2, 3)]?),
        end: End::Stopped,
    };
    let w = whole_run(alloc, Some(1), run)?;
    let log = "netmeshlog 1\nrun 4 2097152 300 10 1\ndomain 2 3 3 1 1 stopped\np 0 0\n\
        p 640000 0\np 0 640000\nl 1 2\nl 2 3\nl 3 1\n\
        a 6 1 8 3 1 2 3 1 -64 7 2 3 1 2 4 3 1 4 3\nf 2 2 3\nend\n";
    assert_eq!(rt; write_log(alloc, &w)?.as_slice(), log.as_bytes());
    Ok(())
}
