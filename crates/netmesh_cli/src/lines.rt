//! The printed lines of refusals.

ghost use Rattle.std.specs.Prelude.{◌≡◌, ◌++◌, ◌∷◌, [], pos, IfOk, OnOk, string_bytes, codes};
ghost use Rattle.std.specs.Fmt.{decimal};
ghost use Rattle.netmesh_cli.specs.Lines.{numbers_line, words_number, in2d_line, geometry_line};
ghost use Rattle.netmesh_cli.specs.Lines.{rules_line, vol_line, log_line, refusal_line};

use super::Refusal;
use call_words::WordsFault;
use geom_check::GeomRefusal;
use in2d_reader::In2dRefusal;
use rule_reader::RuleRefusal;
use run_log::LogRefusal;
use std::alloc::{AllocError, Global};
use std::fmt::Write;
use text_rows::write_spaced_wide;
use vol_format::VolRefusal;

/// Adds a number in decimal digits.
fn push_number(text: &mut String, n: u32) -> Result<(), AllocError>
    ensures { OnOk result (string_bytes text.new ≡ string_bytes text.old ++ decimal n) }
{
    write!(text, "{n}")
}

/// The line of a form that is not built yet.
fn not_yet_line(alloc: Global, part: u32) -> Result<Vec<u8>, AllocError>
    ensures { IfOk result (λ line. line.items
        ≡ codes "refused notyet " ++ decimal part ++ codes "\n") }
{
    let mut text = String::new(alloc);
    text.push_str("refused notyet ")?;
    push_number(&mut text, part)?;
    text.push_str("\n")?;
    Ok(text.into_bytes())
}

/// The line of a file that the folder refused.
fn folder_line(alloc: Global, name: &[u8], fault: u32) -> Result<Vec<u8>, AllocError>
    ensures { IfOk result (λ line. line.items
        ≡ codes "refused folder " ++ decimal fault ++ codes " " ++ name.now ++ codes "\n") }
{
    let mut text = String::new(alloc);
    text.push_str("refused folder ")?;
    push_number(&mut text, fault)?;
    text.push_str(" ")?;
    let mut line = text.into_bytes();
    line.extend_from_slice(name)?;
    line.extend_from_slice(b"\n")?;
    Ok(line)
}

/// The line of a kind of refusal with its numbers.
fn numbers_line(alloc: Global, kind: &str, numbers: &[i128]) -> Result<Vec<u8>, AllocError>
    ensures { IfOk result (λ line. line.items ≡ numbers_line kind.now numbers.now) }
{
    let mut text = String::new(alloc);
    text.push_str("refused ")?;
    text.push_str(kind)?;
    write_spaced_wide(&mut text, numbers)?;
    text.push_str("\n")?;
    Ok(text.into_bytes())
}

/// The number of a fault of the words.
fn words_number(fault: WordsFault) -> u8
    ensures { result ≡ words_number fault }
{
    match fault {
        WordsFault::NoVerb => 1,
        WordsFault::UnknownVerb => 2,
        WordsFault::Form => 3,
        WordsFault::Value => 4,
        WordsFault::SameName => 5,
    }
}

/// The line of words at fault.
fn words_line(alloc: Global, fault: WordsFault) -> Result<Vec<u8>, AllocError>
    ensures { IfOk result (λ line. line.items
        ≡ numbers_line (codes "words") (pos (words_number fault) ∷ [])) }
{
    numbers_line(alloc, "words", &[i128::from(words_number(fault))])
}

/// The line of a geometry's text that is at fault.
fn in2d_line(alloc: Global, fault: &In2dRefusal) -> Result<Vec<u8>, AllocError>
    ensures { IfOk result (λ line. line.items ≡ in2d_line fault.now) }
{
    match fault {
        In2dRefusal::Syntax { word } => numbers_line(alloc, "in2d", &[1, *word as i128]),
        In2dRefusal::Number { word } => numbers_line(alloc, "in2d", &[2, *word as i128]),
        In2dRefusal::Curved { segment } => numbers_line(alloc, "in2d", &[3, *segment as i128]),
        In2dRefusal::TooMany { what } => numbers_line(alloc, "in2d", &[4, *what as i128]),
        In2dRefusal::NumberTwice { word } => numbers_line(alloc, "in2d", &[5, *word as i128]),
        In2dRefusal::UnknownPoint { segment } => numbers_line(
            alloc,
            "in2d",
            &[6, *segment as i128],
        ),
        In2dRefusal::Memory => Ok(Vec::new(alloc)),
    }
}

/// The line of a geometry that is at fault.
fn geometry_line(alloc: Global, fault: &GeomRefusal) -> Result<Vec<u8>, AllocError>
    ensures { IfOk result (λ line. line.items ≡ geometry_line fault.now) }
{
    let kind = "geometry";
    match fault {
        GeomRefusal::NoDomain => numbers_line(alloc, kind, &[1]),
        GeomRefusal::TooLarge { point } => numbers_line(alloc, kind, &[2, *point as i128]),
        GeomRefusal::SamePlace { i, j } => numbers_line(alloc, kind, &[3, *i as i128, *j as i128]),
        GeomRefusal::SameSides { segment } => numbers_line(alloc, kind, &[4, *segment as i128]),
        GeomRefusal::NoLength { segment } => numbers_line(alloc, kind, &[5, *segment as i128]),
        GeomRefusal::Meet { i, j } => numbers_line(alloc, kind, &[6, *i as i128, *j as i128]),
        GeomRefusal::OpenAt { point, domain } => {
            numbers_line(alloc, kind, &[7, *point as i128, *domain as i128])
        }
        GeomRefusal::Side { domain, at } => {
            numbers_line(alloc, kind, &[8, *domain as i128, at.x, at.y, at.k])
        }
        GeomRefusal::Overlap { at } => numbers_line(alloc, kind, &[9, at.x, at.y, at.k]),
        GeomRefusal::Memory => Ok(Vec::new(alloc)),
    }
}

/// The line of a rule file that is at fault.
fn rules_line(alloc: Global, fault: &RuleRefusal) -> Result<Vec<u8>, AllocError>
    ensures { IfOk result (λ line. line.items ≡ rules_line fault.now) }
{
    let kind = "rules";
    match fault {
        RuleRefusal::Syntax { word } => numbers_line(alloc, kind, &[1, *word as i128]),
        RuleRefusal::Number { word } => numbers_line(alloc, kind, &[2, *word as i128]),
        RuleRefusal::TooMany { rule, what } => {
            numbers_line(alloc, kind, &[3, *rule as i128, *what as i128])
        }
        RuleRefusal::BadIndex { rule, word } => {
            numbers_line(alloc, kind, &[4, *rule as i128, *word as i128])
        }
        RuleRefusal::TooLoose { rule } => numbers_line(alloc, kind, &[5, *rule as i128]),
        RuleRefusal::Memory => Ok(Vec::new(alloc)),
    }
}

/// The line of a mesh that is at fault.
fn vol_line(alloc: Global, fault: &VolRefusal) -> Result<Vec<u8>, AllocError>
    ensures { IfOk result (λ line. line.items ≡ vol_line fault.now) }
{
    match fault {
        VolRefusal::Syntax { word } => numbers_line(alloc, "vol", &[1, *word as i128]),
        VolRefusal::Number { word } => numbers_line(alloc, "vol", &[2, *word as i128]),
        VolRefusal::BadIndex { word } => numbers_line(alloc, "vol", &[3, *word as i128]),
        VolRefusal::TooMany { word } => numbers_line(alloc, "vol", &[4, *word as i128]),
        VolRefusal::Memory => Ok(Vec::new(alloc)),
    }
}

/// The line of a log that is at fault, or doesn't have a state.
fn log_line(alloc: Global, fault: &LogRefusal) -> Result<Vec<u8>, AllocError>
    ensures { IfOk result (λ line. line.items ≡ log_line fault.now) }
{
    match fault {
        LogRefusal::Syntax { word } => numbers_line(alloc, "log", &[1, *word as i128]),
        LogRefusal::Number { word } => numbers_line(alloc, "log", &[2, *word as i128]),
        LogRefusal::BadIndex { word } => numbers_line(alloc, "log", &[3, *word as i128]),
        LogRefusal::NoState { domain, step } => {
            numbers_line(alloc, "log", &[4, *domain as i128, *step as i128])
        }
        LogRefusal::Memory => Ok(Vec::new(alloc)),
    }
}

/// The line of a refusal: `refused`, its kind, its number and its values.
pub fn line_of(alloc: Global, refusal: &Refusal) -> Result<Vec<u8>, AllocError>
    ensures { IfOk result (λ line. line.items ≡ refusal_line refusal.now) }
{
    match refusal {
        Refusal::Words(fault) => words_line(alloc, *fault),
        Refusal::In2d(fault) => in2d_line(alloc, fault),
        Refusal::Geometry(fault) => geometry_line(alloc, fault),
        Refusal::Rules(fault) => rules_line(alloc, fault),
        Refusal::Vol(fault) => vol_line(alloc, fault),
        Refusal::Log(fault) => log_line(alloc, fault),
        Refusal::Folder { name, fault } => folder_line(alloc, name.as_slice(), *fault),
        Refusal::Out | Refusal::Memory => Ok(Vec::new(alloc)),
        Refusal::NotYet { part } => not_yet_line(alloc, *part),
    }
}
