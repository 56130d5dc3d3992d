//! The normal text of rules.

ghost use Rattle.std.specs.Prelude.{◌≡◌, ◌<◌, ◌≤◌, ◌^◌, ◌++◌, ◌∷◌, [], ℕ, List, OnOk, IfOk, codes};
ghost use Rattle.std.specs.List.{flat_map};
ghost use Rattle.std.specs.Fmt.{decimal};
ghost use Rattle.rule_reader.specs.Words.{words_of};
ghost use Rattle.rule_reader.specs.Grammar.{Admits};
ghost use Rattle.rule_reader.specs.Normal.{minus, decimals, fraction_text, number_text, coordinates_text, ends_text, triple_text, map_point_text, del_text, map_line_text, letter_text, term_text, more_terms_text, row_text, place_text, pair_text, more_numbers_text, element_text, turn_text, section_text, sections_text, head_text, rule_text, normal_text, CanPrint};

use crate::lists::{Row, Rules};
use crate::rule::{MapLine, MapPoint, Place, Rule, Term, Triple};
use grid_geom::Element;
use std::alloc::{AllocError, Global};

/// Writes a whole number.
fn put_whole(alloc: Global, out: &mut Vec<u8>, number: u64) -> Result<(), AllocError>
    ensures { OnOk result (out.new.items ≡ out.old.items ++ decimal number) }
{
    let digits = format!(in alloc; "{number}")?;
    out.extend_from_slice(digits.as_bytes())?;
    Ok(())
}

/// The decimals of `part` / 10^`places`, without noughts at the end.
fn put_decimals(out: &mut Vec<u8>, places: u32, part: u32) -> Result<(), AllocError>
    requires few { places ≤ 4 }
    requires part { part < 10 ^ places }
    ensures { OnOk result (out.new.items ≡ out.old.items ++ decimals places part) }
{
    if places == 0 || part == 0 {
        return Ok(());
    }
    let unit = 10u32.pow(places - 1);
    out.push(b'0' + (part / unit) as u8)?;
    put_decimals(out, places - 1, part % unit)?;
    Ok(())
}

/// A point and the decimals, if there are any.
fn put_fraction(out: &mut Vec<u8>, part: u32) -> Result<(), AllocError>
    requires { part < 10000 }
    ensures { OnOk result (out.new.items ≡ out.old.items ++ fraction_text part) }
{
    if part == 0 {
        return Ok(());
    }
    out.push(b'.')?;
    put_decimals(out, 4, part)?;
    Ok(())
}

/// A minus where the number is below nought.
fn put_sign(out: &mut Vec<u8>, number: &i32) -> Result<(), AllocError>
    ensures { OnOk result (out.new.items ≡ out.old.items ++ minus number.now) }
{
    if *number < 0 {
        out.push(b'-')?;
    }
    Ok(())
}

/// A number of units of 1/10,000.
#[tactic(auto, unfolding(crate::specs::Normal::number_text))]
fn put_number(alloc: Global, out: &mut Vec<u8>, number: &i32) -> Result<(), AllocError>
    ensures { OnOk result (out.new.items ≡ out.old.items ++ number_text number.now) }
{
    let size = number.unsigned_abs();
    put_sign(out, number)?;
    put_whole(alloc, out, u64::from(size / 10_000))?;
    put_fraction(out, size % 10_000)?;
    Ok(())
}

/// A place in round brackets.
fn put_coordinates(alloc: Global, out: &mut Vec<u8>, x: &i32, y: &i32) -> Result<(), AllocError>
    ensures { OnOk result (out.new.items ≡ out.old.items ++ coordinates_text x.now y.now) }
{
    out.extend_from_slice(b"(")?;
    put_number(alloc, out, x)?;
    out.extend_from_slice(b", ")?;
    put_number(alloc, out, y)?;
    out.extend_from_slice(b")")?;
    Ok(())
}

/// Two indices in round brackets.
fn put_ends(alloc: Global, out: &mut Vec<u8>, i: u32, j: u32) -> Result<(), AllocError>
    ensures { OnOk result (out.new.items ≡ out.old.items ++ ends_text i j) }
{
    out.extend_from_slice(b"(")?;
    put_whole(alloc, out, u64::from(i))?;
    out.extend_from_slice(b", ")?;
    put_whole(alloc, out, u64::from(j))?;
    out.extend_from_slice(b")")?;
    Ok(())
}

/// Weights in curly brackets.
fn put_triple(alloc: Global, out: &mut Vec<u8>, t: &Triple) -> Result<(), AllocError>
    ensures { OnOk result (out.new.items ≡ out.old.items ++ triple_text t.now) }
{
    out.extend_from_slice(b" { ")?;
    put_number(alloc, out, &t.f1)?;
    out.extend_from_slice(b", ")?;
    put_number(alloc, out, &t.f2)?;
    out.extend_from_slice(b", ")?;
    put_number(alloc, out, &t.f3)?;
    out.extend_from_slice(b" }")?;
    Ok(())
}

/// What a section has a list of.
trait Printed {
    /// The line of an entry.
    ghost text: { Self → List ℕ };

    /// Writes this line.
    fn put(&self, alloc: Global, out: &mut Vec<u8>) -> Result<(), AllocError>
        ensures { OnOk result (out.new.items ≡ out.old.items ++ text self.now) };
}

impl Printed for MapPoint {
    ghost use Rattle.rule_reader.specs.Words.{words_of};
    ghost use Rattle.rule_reader.specs.Grammar.{Admits};
    ghost use Rattle.rule_reader.specs.Normal.{map_point_text};

    ghost text = { map_point_text };

    fn put(&self, alloc: Global, out: &mut Vec<u8>) -> Result<(), AllocError> {
        put_coordinates(alloc, out, &self.x, &self.y)?;
        put_triple(alloc, out, &self.tol)?;
        out.extend_from_slice(b";\n")?;
        Ok(())
    }
}

/// `del` for a line that leaves.
fn put_del(out: &mut Vec<u8>, del: bool) -> Result<(), AllocError>
    ensures { OnOk result (out.new.items ≡ out.old.items ++ del_text del) }
{
    if del {
        out.extend_from_slice(b" del")?;
    }
    Ok(())
}

impl Printed for MapLine {
    ghost use Rattle.rule_reader.specs.Words.{words_of};
    ghost use Rattle.rule_reader.specs.Grammar.{Admits};
    ghost use Rattle.rule_reader.specs.Normal.{map_line_text};

    ghost text = { map_line_text };

    fn put(&self, alloc: Global, out: &mut Vec<u8>) -> Result<(), AllocError> {
        put_ends(alloc, out, self.i, self.j)?;
        put_triple(alloc, out, &self.tol)?;
        put_del(out, self.del)?;
        out.extend_from_slice(b";\n")?;
        Ok(())
    }
}

/// A variable's letter.
fn put_letter(out: &mut Vec<u8>, of_y: bool) -> Result<(), AllocError>
    ensures { OnOk result (out.new.items ≡ out.old.items ++ letter_text of_y) }
{
    if of_y {
        out.extend_from_slice(b" Y")?;
        return Ok(());
    }
    out.extend_from_slice(b" X")?;
    Ok(())
}

/// Writes a multiple of a variable.
fn put_term(alloc: Global, out: &mut Vec<u8>, term: &Term) -> Result<(), AllocError>
    ensures { OnOk result (out.new.items ≡ out.old.items ++ term_text term.now) }
{
    put_number(alloc, out, &term.coefficient)?;
    put_letter(out, term.of_y)?;
    put_whole(alloc, out, u64::from(term.point))?;
    Ok(())
}

/// Terms, each behind a comma.
fn put_more_terms(alloc: Global, out: &mut Vec<u8>, terms: &[Term]) -> Result<(), AllocError>
    ensures { OnOk result (out.new.items ≡ out.old.items ++ more_terms_text terms.now) }
{
    for term in terms {
        out.extend_from_slice(b", ")?;
        put_term(alloc, out, term)?;
    }
    Ok(())
}

/// A row in curly brackets.
fn put_row(alloc: Global, out: &mut Vec<u8>, row: &Row) -> Result<(), AllocError>
    ensures { OnOk result (out.new.items ≡ out.old.items ++ row_text row.now) }
{
    match row.as_slice() {
        [] => {
            out.extend_from_slice(b" { }")?;
            Ok(())
        }
        [first, others @ ..] => {
            out.extend_from_slice(b" { ")?;
            put_term(alloc, out, first)?;
            put_more_terms(alloc, out, others)?;
            out.extend_from_slice(b" }")?;
            Ok(())
        }
    }
}

impl Printed for Place {
    ghost use Rattle.rule_reader.specs.Words.{words_of};
    ghost use Rattle.rule_reader.specs.Grammar.{Admits};
    ghost use Rattle.rule_reader.specs.Normal.{place_text};

    ghost text = { place_text };

    fn put(&self, alloc: Global, out: &mut Vec<u8>) -> Result<(), AllocError> {
        put_coordinates(alloc, out, &self.x, &self.y)?;
        put_row(alloc, out, &self.row_x)?;
        put_row(alloc, out, &self.row_y)?;
        out.extend_from_slice(b";\n")?;
        Ok(())
    }
}

impl Printed for (u32, u32) {
    ghost use Rattle.rule_reader.specs.Words.{words_of};
    ghost use Rattle.rule_reader.specs.Grammar.{Admits};
    ghost use Rattle.rule_reader.specs.Normal.{pair_text};

    ghost text = { pair_text };

    fn put(&self, alloc: Global, out: &mut Vec<u8>) -> Result<(), AllocError> {
        put_ends(alloc, out, self.0, self.1)?;
        out.extend_from_slice(b";\n")?;
        Ok(())
    }
}

/// Numbers, each behind a comma.
fn put_more_numbers(alloc: Global, out: &mut Vec<u8>, numbers: &[u64]) -> Result<(), AllocError>
    ensures { OnOk result (out.new.items ≡ out.old.items ++ more_numbers_text numbers.now) }
{
    for number in numbers {
        out.extend_from_slice(b", ")?;
        put_whole(alloc, out, *number)?;
    }
    Ok(())
}

/// The line of an element.
fn put_element(alloc: Global, out: &mut Vec<u8>, numbers: &[u64]) -> Result<(), AllocError>
    ensures { OnOk result (out.new.items ≡ out.old.items ++ element_text numbers.now) }
{
    match numbers {
        [] => {
            out.extend_from_slice(b"();\n")?;
            Ok(())
        }
        [first, others @ ..] => {
            out.extend_from_slice(b"(")?;
            put_whole(alloc, out, *first)?;
            put_more_numbers(alloc, out, others)?;
            out.extend_from_slice(b");\n")?;
            Ok(())
        }
    }
}

impl Printed for Element {
    ghost use Rattle.rule_reader.specs.Words.{words_of};
    ghost use Rattle.rule_reader.specs.Grammar.{Admits};
    ghost use Rattle.rule_reader.specs.Normal.{element_text};

    ghost text = { element_text };

    fn put(&self, alloc: Global, out: &mut Vec<u8>) -> Result<(), AllocError> {
        put_element(alloc, out, self.as_slice())?;
        Ok(())
    }
}

impl Printed for (u32, u32, u32) {
    ghost use Rattle.rule_reader.specs.Words.{words_of};
    ghost use Rattle.rule_reader.specs.Grammar.{Admits};
    ghost use Rattle.rule_reader.specs.Normal.{turn_text};

    ghost text = { turn_text };

    fn put(&self, alloc: Global, out: &mut Vec<u8>) -> Result<(), AllocError> {
        let numbers = [u64::from(self.0), u64::from(self.1), u64::from(self.2)];
        put_element(alloc, out, &numbers)?;
        Ok(())
    }
}

/// Entries, each on a line.
fn put_entries<E: Printed>(
    alloc: Global,
    out: &mut Vec<u8>,
    entries: &[E],
) -> Result<(), AllocError>
    ensures { OnOk result (out.new.items ≡ out.old.items ++ flat_map E.text entries.now) }
{
    for entry in entries {
        entry.put(alloc, out)?;
    }
    Ok(())
}

/// A section: its word on a line, and its entries; nothing without entries.
fn put_section<E: Printed>(
    alloc: Global,
    out: &mut Vec<u8>,
    word: &[u8],
    entries: &[E],
) -> Result<(), AllocError>
    ensures { OnOk result (out.new.items ≡ out.old.items ++ section_text word.now E.text
        entries.now) }
{
    match entries {
        [] => Ok(()),
        [_, ..] => {
            out.extend_from_slice(word)?;
            put_entries(alloc, out, entries)?;
            Ok(())
        }
    }
}

/// All sections but the quality.
fn put_sections(alloc: Global, out: &mut Vec<u8>, rule: &Rule) -> Result<(), AllocError>
    ensures { OnOk result (out.new.items ≡ out.old.items ++ sections_text rule.now) }
{
    put_section(alloc, out, b"mappoints\n", rule.points.as_slice())?;
    put_section(alloc, out, b"maplines\n", rule.lines.as_slice())?;
    put_section(alloc, out, b"newpoints\n", rule.new_points.as_slice())?;
    put_section(alloc, out, b"newlines\n", rule.new_lines.as_slice())?;
    put_section(alloc, out, b"freearea\n", rule.area.as_slice())?;
    put_section(alloc, out, b"freearea2\n", rule.limit.as_slice())?;
    put_section(alloc, out, b"elements\n", rule.elements.as_slice())?;
    put_section(alloc, out, b"orientations\n", rule.turns.as_slice())?;
    Ok(())
}

/// The name and the quality.
fn put_head(alloc: Global, out: &mut Vec<u8>, rule: &Rule) -> Result<(), AllocError>
    ensures { OnOk result (out.new.items ≡ out.old.items ++ head_text rule.now) }
{
    out.extend_from_slice(b"rule \"")?;
    out.extend_from_slice(rule.name.as_slice())?;
    out.extend_from_slice(b"\"\nquality ")?;
    put_whole(alloc, out, u64::from(rule.quality))?;
    out.extend_from_slice(b"\n")?;
    Ok(())
}

/// Writes a rule, from its name to `endrule`.
fn put_rule(alloc: Global, out: &mut Vec<u8>, rule: &Rule) -> Result<(), AllocError>
    ensures { OnOk result (out.new.items ≡ out.old.items ++ rule_text rule.now) }
{
    put_head(alloc, out, rule)?;
    put_sections(alloc, out, rule)?;
    out.extend_from_slice(b"endrule\n")?;
    Ok(())
}

/// The lines of rules, one rule after another.
fn text_of(alloc: Global, rules: &[Rule]) -> Result<Vec<u8>, AllocError>
    ensures { IfOk result (λ text. text.items ≡ normal_text rules.now) }
{
    let mut out = Vec::new(alloc);
    for rule in rules {
        put_rule(alloc, &mut out, rule)?;
    }
    Ok(out)
}

/// The normal text of rules: one after another, each with its name, its quality, and in a fixed
/// order each section that has entries, an entry a line. Numbers have no noughts at the end.
pub fn print_rules(alloc: Global, rules: &Rules) -> Result<Vec<u8>, AllocError>
    requires { CanPrint rules.now }
    ensures text { IfOk result (λ text. text.items ≡ normal_text rules.now) }
    // It is admitted again, with the rules that were printed.
    ensures again { IfOk result (λ text. Admits (words_of text.items) rules.now) }
{
    text_of(alloc, rules.as_slice())
}
