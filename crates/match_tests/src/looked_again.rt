// `again` and the plain enumeration on small fronts: there is a candidate that maps a fresh point exactly where one of
// all candidates does. With a rule of four points beside rules of three, which maps nothing anywhere but makes `again`
// gather all near points, both the answer and the notes are the same.
ghost use Rattle.std.specs.Prelude.{◌≤◌, length, IfOk};

use crate::cases::{GLUED, QUADRILATERALS, TRIANGLES, after};
use crate::compared::{SIZE, line_of};
use crate::enumeration::{Line, Pick, candidates};
use crate::fronts::{of_four, of_three, ring};
use crate::reading::read;
use crate::texts::{EDGES, LOOSE, NOWHERE, THREE, TIES};
use front_chain::Front;
use rule_maps::RuleSet;
use rule_match::{Note, again};
use size_field::Sizes;
use std::alloc::Global;
use std::test::Fail;

/// What is looked at: a line at a class with fresh points.
#[derive(Drop)]
struct Look<'a> {
    front: &'a Front,
    line: u64,
    class: u32,
    fresh: &'a [u64],
}

/// How often something is found, how often nothing, and how many notes are made where nothing is.
type Counts = (u64, u64, u64);

/// Whether a candidate maps a fresh point, and what is noted.
fn looked(
    alloc: Global,
    look: &Look<'_>,
    rules: &RuleSet<'_>,
    notes: &mut Vec<Note>,
) -> Result<bool, Fail> {
    if look.front.line(look.line).is_none() || look.class < 1 || 16 < look.class {
        return Err("the line is on the front, the class from 1 to 16".into());
    }
    let sizes = Sizes::new(alloc, SIZE, 300);
    Ok(again(
        alloc, look.front, &sizes, rules, look.line, look.class, look.fresh, notes,
    )?)
}

/// Whether the candidate maps a fresh point.
fn does_map(pick: &Pick, fresh: &[u64]) -> bool {
    pick.points.iter().any(|n| fresh.contains(n))
}

/// Whether each note of the first list is in the second.
fn are_among(some: &[Note], all: &[Note]) -> bool {
    for note in some {
        if !all
            .iter()
            .any(|n| n.line == note.line && n.point == note.point)
        {
            return false;
        }
    }
    true
}

/// Whether the two lists have the same notes.
fn are_same(first: &[Note], second: &[Note]) -> bool {
    are_among(first, second) && are_among(second, first)
}

/// The text with the rule of four points after its own.
fn with_four(alloc: Global, text: &[u8]) -> Result<Vec<u8>, Fail>
    ensures { IfOk result (λ v. length v.items ≤ 1048576) }
{
    let mut longer = text.to_vec(alloc)?;
    longer.extend_from_slice(NOWHERE)?;
    if longer.len() > 1_048_576 {
        return Err("the text is short".into());
    }
    Ok(longer)
}

/// Whether something is found, exactly where a candidate maps a fresh point.
fn is_found(
    alloc: Global,
    look: &Look<'_>,
    rules: &RuleSet<'_>,
    picks: &[Pick],
    notes: &mut Vec<Note>,
) -> Result<bool, Fail> {
    let yes = looked(alloc, look, rules, notes)?;
    if picks.iter().any(|pick| does_map(pick, look.fresh)) != yes {
        return Err("something is found exactly where a candidate maps a fresh point".into());
    }
    Ok(yes)
}

/// Looks once by each of the two lists of rules, which say the same, and counts.
fn look_at(
    alloc: Global,
    look: &Look<'_>,
    rules: (&RuleSet<'_>, &RuleSet<'_>),
    picks: &[Pick],
    counts: Counts,
) -> Result<Counts, Fail> {
    let (mut notes, mut others) = (Vec::new(alloc), Vec::new(alloc));
    let yes = is_found(alloc, look, rules.0, picks, &mut notes)?;
    if is_found(alloc, look, rules.1, picks, &mut others)? != yes {
        return Err("the rule of four points changes nothing".into());
    }
    if yes {
        return Ok((counts.0.saturating_add(1), counts.1, counts.2));
    }
    if !are_same(&notes, &others) {
        return Err("the same is noted".into());
    }
    let noted = counts.2.saturating_add(notes.len() as u64);
    Ok((counts.0, counts.1.saturating_add(1), noted))
}

/// The numbers from 1 to n.
fn numbers_to(alloc: Global, n: u64) -> Result<Vec<u64>, Fail> {
    let mut numbers = Vec::new(alloc);
    for k in 0..n {
        numbers.push(k.saturating_add(1))?;
    }
    Ok(numbers)
}

/// Looks at a line with each listed point alone, with a number that no point has, and with all these.
fn look_at_line(
    alloc: Global,
    line: &Line,
    place: (&Front, u64),
    rules: (&RuleSet<'_>, &RuleSet<'_>),
    counts: Counts,
) -> Result<Counts, Fail> {
    let (front, number) = place;
    let picks = candidates(alloc, front, line, rules.0)?;
    let numbers = numbers_to(alloc, front.points().saturating_add(1))?;
    let class = line.class;
    let mut counts = counts;
    for n in 0..numbers.len() {
        let look = Look {
            front,
            line: number,
            class,
            fresh: &numbers[n..n + 1],
        };
        counts = look_at(alloc, &look, rules, &picks, counts)?;
    }
    let look = Look {
        front,
        line: number,
        class,
        fresh: numbers.as_slice(),
    };
    look_at(alloc, &look, rules, &picks, counts)
}

/// Looks at all lines of a front at classes 1 and 6, by the rules of a text, and by these and one of four points.
fn look_by(alloc: Global, front: &Front, text: &[u8], counts: Counts) -> Result<Counts, Fail>
    requires { length text.now ≤ 1048576 }
{
    let (rules, longer) = (read(alloc, text)?, with_four(alloc, text)?);
    let more_rules = read(alloc, &longer)?;
    let (set, more) = (
        RuleSet::new(alloc, &rules)?,
        RuleSet::new(alloc, &more_rules)?,
    );
    let mut counts = counts;
    for number in 1..front.next_number() {
        if let Some(ends) = front.line(number) {
            for class in [1, 6] {
                let line = line_of(alloc, front, ends, class)?;
                counts = look_at_line(alloc, &line, (front, number), (&set, &more), counts)?;
            }
        }
    }
    Ok(counts)
}

/// Looks at a front by rules of three points, and by others, each by itself.
fn look_everywhere(
    alloc: Global,
    front: &Front,
    counts: (Counts, Counts),
) -> Result<(Counts, Counts), Fail> {
    let short = look_by(alloc, front, TIES, counts.0)?;
    let long = look_by(alloc, front, EDGES, counts.1)?;
    Ok((
        look_by(alloc, front, THREE, short)?,
        look_by(alloc, front, LOOSE, long)?,
    ))
}

/// Nothing counted.
const NONE: (Counts, Counts) = ((0, 0, 0), (0, 0, 0));

#[test]
fn on_triangles(rt: HostRuntime) -> Result<(), Fail> {
    let mut counts = NONE;
    for case in TRIANGLES {
        let (a, b, c) = case.0;
        let front = of_three(rt.alloc(), a, b, c)?;
        counts = look_everywhere(rt.alloc(), &front, counts)?;
    }
    assert_eq!(rt; counts, ((388, 332, 156), (300, 420, 0)));
    Ok(())
}

#[test]
fn on_quadrilaterals(rt: HostRuntime) -> Result<(), Fail> {
    let mut counts = NONE;
    for case in QUADRILATERALS {
        let (a, b, c, d) = case.0;
        let front = of_four(rt.alloc(), a, b, c, d)?;
        counts = look_everywhere(rt.alloc(), &front, counts)?;
    }
    assert_eq!(rt; counts, ((715, 437, 301), (784, 368, 0)));
    Ok(())
}

#[test]
fn after_elements_are_glued(rt: HostRuntime) -> Result<(), Fail> {
    let mut counts = NONE;
    for case in GLUED {
        let front = after(rt.alloc(), case.0, case.1, case.2)?;
        counts = look_everywhere(rt.alloc(), &front, counts)?;
    }
    assert_eq!(rt; counts, ((368, 612, 559), (269, 711, 239)));
    Ok(())
}

#[test]
fn on_a_square_with_a_hole(rt: HostRuntime) -> Result<(), Fail> {
    let front = ring(rt.alloc())?;
    let counts = look_by(rt.alloc(), &front, TIES, (0, 0, 0))?;
    assert_eq!(rt; look_by(rt.alloc(), &front, THREE, counts)?, (80, 240, 496));
    Ok(())
}
