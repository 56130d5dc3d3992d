//! Reading the sections of a rule, and the rule.

ghost use Rattle.std.specs.Prelude.{◌≡◌, ◌+◌, ◌-◌, ◌≤◌, ℕ, option_map};
ghost use Rattle.rule_reader.specs.Words.{seen};
ghost use Rattle.rule_reader.specs.Reading.{Gives};
ghost use Rattle.rule_reader.specs.Sections.{section_of, section_fit, has, empty_parts, rule_of, section_at, sections_at, name_of_rule_at, rule_at};

use crate::entries::entries;
use crate::fault::{Fault, Stop};
use crate::lists::{Elements, MapLines, MapPoints, Pairs, Places, Turns};
use crate::reader::{Fit, Reader};
use crate::rule::Rule;
use crate::tokens::Token;
use crate::verdict::check;
use std::alloc::Global;
use word_scan::Name;

/// How many entries a section has at most, and the number of this limit in a refusal.
#[derive(Clone, Copy)]
struct Limit {
    most: usize,
    what: u64,
}

const MAPPOINTS: Limit = Limit { most: 16, what: 2 };

const MAPLINES: Limit = Limit { most: 16, what: 3 };

const NEWPOINTS: Limit = Limit { most: 8, what: 4 };

const NEWLINES: Limit = Limit { most: 24, what: 5 };

const FREEAREA: Limit = Limit { most: 24, what: 6 };

const FREEAREA2: Limit = Limit { most: 24, what: 7 };

const ELEMENTS: Limit = Limit { most: 8, what: 8 };

const ORIENTATIONS: Limit = Limit { most: 16, what: 9 };

/// How many sections a rule has at most: one of each kind.
const SECTIONS: usize = 9;
/// How many bytes a rule's name has at most.
const NAME: usize = 200;

/// The kind of a section.
#[derive(Clone, Copy)]
pub enum SectionKind {
    Quality,
    MapPoints,
    MapLines,
    NewPoints,
    NewLines,
    FreeArea,
    FreeArea2,
    Elements,
    Orientations,
}

/// The sections of a rule that were read.
#[derive(Drop)]
pub struct Parts {
    pub quality: Option<u32>,
    pub points: Option<MapPoints>,
    pub lines: Option<MapLines>,
    pub new_points: Option<Places>,
    pub new_lines: Option<Pairs>,
    pub area: Option<Places>,
    pub limit: Option<Places>,
    pub elements: Option<Elements>,
    pub turns: Option<Turns>,
}

impl Parts {
    /// No section was read yet.
    fn new() -> Self
        ensures { result ≡ empty_parts }
    {
        Parts {
            quality: None,
            points: None,
            lines: None,
            new_points: None,
            new_lines: None,
            area: None,
            limit: None,
            elements: None,
            turns: None,
        }
    }

    /// Whether a section of this kind was read.
    fn has(&self, section: SectionKind) -> bool
        ensures { result ≡ has section self.now }
    {
        match section {
            SectionKind::Quality => self.quality.is_some(),
            SectionKind::MapPoints => self.points.is_some(),
            SectionKind::MapLines => self.lines.is_some(),
            SectionKind::NewPoints => self.new_points.is_some(),
            SectionKind::NewLines => self.new_lines.is_some(),
            SectionKind::FreeArea => self.area.is_some(),
            SectionKind::FreeArea2 => self.limit.is_some(),
            SectionKind::Elements => self.elements.is_some(),
            SectionKind::Orientations => self.turns.is_some(),
        }
    }

    /// The rule of this name that has these sections; without a section its list is empty, and the
    /// quality is 1.
    fn into_rule(self, alloc: Global, name: Name) -> Rule
        ensures { result ≡ rule_of name self }
    {
        Rule {
            name,
            quality: self.quality.unwrap_or(1),
            points: self.points.unwrap_or(MapPoints::from_vec(Vec::new(alloc))),
            lines: self.lines.unwrap_or(MapLines::from_vec(Vec::new(alloc))),
            new_points: self.new_points.unwrap_or(Places::from_vec(Vec::new(alloc))),
            new_lines: self.new_lines.unwrap_or(Pairs::from_vec(Vec::new(alloc))),
            area: self.area.unwrap_or(Places::from_vec(Vec::new(alloc))),
            limit: self.limit.unwrap_or(Places::from_vec(Vec::new(alloc))),
            elements: self.elements.unwrap_or(Elements::from_vec(Vec::new(alloc))),
            turns: self.turns.unwrap_or(Turns::from_vec(Vec::new(alloc))),
        }
    }
}

/// The kind of section that begins with this word.
fn section_of(name: &[u8]) -> Option<SectionKind>
    ensures { result ≡ section_of name.now }
{
    if name == b"quality".as_slice() {
        Some(SectionKind::Quality)
    } else if name == b"mappoints".as_slice() {
        Some(SectionKind::MapPoints)
    } else if name == b"maplines".as_slice() {
        Some(SectionKind::MapLines)
    } else if name == b"newpoints".as_slice() {
        Some(SectionKind::NewPoints)
    } else if name == b"newlines".as_slice() {
        Some(SectionKind::NewLines)
    } else if name == b"freearea".as_slice() {
        Some(SectionKind::FreeArea)
    } else if name == b"freearea2".as_slice() {
        Some(SectionKind::FreeArea2)
    } else if name == b"elements".as_slice() {
        Some(SectionKind::Elements)
    } else if name == b"orientations".as_slice() {
        Some(SectionKind::Orientations)
    } else {
        None
    }
}

/// The kind of section that begins with this token, if there is none of it yet.
fn section_fit(token: Option<Token<'_>>, parts: &Parts) -> Fit<SectionKind>
    ensures { result ≡ section_fit parts.now (option_map seen token.entry) }
{
    match token {
        Some(Token::Name(name)) => match section_of(name) {
            Some(section) => {
                if parts.has(section) {
                    Fit::Unfit
                } else {
                    Fit::Fits(section)
                }
            }
            None => Fit::Unfit,
        },
        _ => Fit::Unfit,
    }
}

/// The next section, added to those before it.
#[tactic(auto, unfolding(crate::specs::Sections::section_at, crate::specs::Sections::content_at))]
fn section(alloc: Global, reader: &mut Reader<'_>, parts: Parts) -> Result<Parts, Stop>
    ensures { Gives (λ x. x) result reader.new (section_at parts reader.old) }
{
    let fit = section_fit(reader.first(), &parts);
    match reader.take(fit)? {
        SectionKind::Quality => {
            let quality = reader.quality()?;
            Ok(Parts {
                quality: Some(quality),
                ..parts
            })
        }
        SectionKind::MapPoints => {
            let points = entries(alloc, reader, MAPPOINTS.most, MAPPOINTS.what)?;
            Ok(Parts {
                points: Some(MapPoints::from_vec(points)),
                ..parts
            })
        }
        SectionKind::MapLines => {
            let lines = entries(alloc, reader, MAPLINES.most, MAPLINES.what)?;
            Ok(Parts {
                lines: Some(MapLines::from_vec(lines)),
                ..parts
            })
        }
        SectionKind::NewPoints => {
            let places = entries(alloc, reader, NEWPOINTS.most, NEWPOINTS.what)?;
            Ok(Parts {
                new_points: Some(Places::from_vec(places)),
                ..parts
            })
        }
        SectionKind::NewLines => {
            let pairs = entries(alloc, reader, NEWLINES.most, NEWLINES.what)?;
            Ok(Parts {
                new_lines: Some(Pairs::from_vec(pairs)),
                ..parts
            })
        }
        SectionKind::FreeArea => {
            let places = entries(alloc, reader, FREEAREA.most, FREEAREA.what)?;
            Ok(Parts {
                area: Some(Places::from_vec(places)),
                ..parts
            })
        }
        SectionKind::FreeArea2 => {
            let places = entries(alloc, reader, FREEAREA2.most, FREEAREA2.what)?;
            Ok(Parts {
                limit: Some(Places::from_vec(places)),
                ..parts
            })
        }
        SectionKind::Elements => {
            let elements = entries(alloc, reader, ELEMENTS.most, ELEMENTS.what)?;
            Ok(Parts {
                elements: Some(Elements::from_vec(elements)),
                ..parts
            })
        }
        SectionKind::Orientations => {
            let turns = entries(alloc, reader, ORIENTATIONS.most, ORIENTATIONS.what)?;
            Ok(Parts {
                turns: Some(Turns::from_vec(turns)),
                ..parts
            })
        }
    }
}

/// The sections up to the end of the rule, or one of each kind.
fn sections(alloc: Global, reader: &mut Reader<'_>) -> Result<Parts, Stop>
    ensures { Gives (λ x. x) result reader.new (sections_at 9 empty_parts reader.old) }
{
    let mut parts = Parts::new();
    for _ in 0..SECTIONS {
        if reader.is_at(b"endrule") {
            return Ok(parts);
        }
        parts = section(alloc, reader, parts)?;
    }
    Ok(parts)
}

/// The name of a rule.
#[tactic(auto, unfolding(crate::specs::Sections::name_of_rule_at))]
fn name(alloc: Global, reader: &mut Reader<'_>) -> Result<Name, Stop>
    ensures { Gives (λ x. x) result reader.new (name_of_rule_at reader.old) }
{
    let text = reader.text()?;
    if text.len() > NAME {
        let rule = reader.rule();
        return Err(Stop::Fault(Fault::TooMany { rule, what: 11 }));
    }
    Ok(Name::from_vec(text.to_vec(alloc)?))
}

/// The rule that comes next.
#[tactic(auto, unfolding(crate::specs::Sections::rule_at))]
pub fn rule(alloc: Global, reader: &mut Reader<'_>) -> Result<Rule, Stop>
    ensures { Gives (λ x. x) result reader.new (rule_at reader.old) }
{
    reader.name(b"rule")?;
    let name = name(alloc, reader)?;
    let parts = sections(alloc, reader)?;
    let left = reader.left();
    reader.name(b"endrule")?;
    let rule = parts.into_rule(alloc, name);
    check(alloc, reader.rule(), reader.uses(), &rule, left)?;
    Ok(rule)
}
