//! A geometry in the reading.

ghost use Rattle.std.specs.Prelude.{◌≡◌, ◌+◌, ◌<◌, ◌^◌, ℕ, ◌&&◌, true, None, length, Ok, OnOk, IfErr, option_map};
ghost use Rattle.in2d_reader.specs.declared.refusal.In2dRefusal.TheVariants.{Memory};
ghost use Rattle.in2d_reader.specs.Refusals.{Takes, Gives};
ghost use Rattle.in2d_reader.specs.Drafts.{draft_of, KnowsNumbers};
ghost use Rattle.in2d_reader.specs.Steps.{nothing_read, head_step, new_point, point_start, point_flag, point_step, new_segment, segment_start, shape_step, segment_flag, segment_step, material_spot, material_start, material_flag, material_step, step, with_point, with_segment, with_material, finish, finished, whole_raw, known_from};
ghost use Rattle.in2d_reader.specs.Grammar.{is_known};

use crate::geometry::{
    MaterialRow, MaterialRows, PointRow, PointRows, RawGeometry, SegmentRow, SegmentRows,
};
use crate::place::{HeadPlace, MaterialPlace, Place, PointPlace, SegmentPlace};
use crate::refusal::In2dRefusal;
use crate::text;
use std::alloc::Global;
use std::collections::BTreeSet;
use word_scan::{Dec, Name};

/// The greatest number of points, and of segments.
const MOST_ROWS: usize = 4096;

/// What has been read of a text, and where the reading stands.
#[derive(Drop)]
pub struct Reader<'a> {
    number: Dec,
    points: Vec<PointRow>,
    segments: Vec<SegmentRow>,
    materials: Vec<MaterialRow>,
    known: BTreeSet<u32>,
    place: Place<'a>,
}

impl<'a> Reader<'a> {
    /// Nothing is read yet.
    pub fn new(alloc: Global) -> Self
        ensures nothing { draft_of result ≡ nothing_read }
        ensures knows { KnowsNumbers result }
    {
        Reader {
            number: Dec {
                digits: 0,
                scale: 0,
            },
            points: Vec::new(alloc),
            segments: Vec::new(alloc),
            materials: Vec::new(alloc),
            known: BTreeSet::new(alloc),
            place: Place::Head(HeadPlace::First),
        }
    }

    /// Takes the next word of the text, word number `at`.
    #[tactic(auto, unfolding(crate::specs::Steps::spot_step))]
    pub fn take(&mut self, alloc: Global, at: u64, word: &'a [u8]) -> Result<(), In2dRefusal>
        requires { KnowsNumbers self.old }
        ensures step { Takes result (step true (draft_of self.old) at word.now)
            (draft_of self.new) }
        ensures knows { OnOk result (KnowsNumbers self.new) }
    {
        match self.place {
            Place::Head(place) => self.take_head(place, at, word),
            Place::Points(place) => self.take_point(place, at, word),
            Place::Segments(place) => self.take_segment(place, at, word),
            Place::Materials(place) => self.take_material(alloc, place, at, word),
        }
    }

    /// Takes a word of the head: the first word, the number of the file, or the word `points`.
    #[tactic(auto, unfolding(crate::specs::Steps::head_step, crate::specs::Words::head_word, crate::specs::Words::points_word))]
    fn take_head(&mut self, place: HeadPlace, at: u64, word: &[u8]) -> Result<(), In2dRefusal>
        requires { KnowsNumbers self.old }
        ensures step { Takes result (head_step (draft_of self.old) place at word.now)
            (draft_of self.new) }
        ensures knows { OnOk result (KnowsNumbers self.new) }
    {
        match place {
            HeadPlace::First => {
                if !text::is(word, b"splinecurves2dv2") {
                    return Err(In2dRefusal::Syntax { word: at });
                }
                self.place = Place::Head(HeadPlace::Number);
                Ok(())
            }
            HeadPlace::Number => {
                self.number = text::decimal_inside(word, at)?;
                self.place = Place::Head(HeadPlace::Points);
                Ok(())
            }
            HeadPlace::Points => {
                if !text::is(word, b"points") {
                    return Err(In2dRefusal::Syntax { word: at });
                }
                self.place = Place::Points(PointPlace::Start);
                Ok(())
            }
        }
    }

    /// Takes a word of the points.
    #[tactic(auto, unfolding(crate::specs::Steps::point_step))]
    fn take_point(&mut self, place: PointPlace, at: u64, word: &[u8]) -> Result<(), In2dRefusal>
        requires { KnowsNumbers self.old }
        ensures step { Takes result (point_step true (draft_of self.old) place at word.now)
            (draft_of self.new) }
        ensures knows { OnOk result (KnowsNumbers self.new) }
    {
        match place {
            PointPlace::Start => self.start_point(at, word),
            PointPlace::X { number } => {
                let x = text::decimal_inside(word, at)?;
                self.place = Place::Points(PointPlace::Y { number, x });
                Ok(())
            }
            PointPlace::Y { number, x } => {
                let y = text::decimal_inside(word, at)?;
                let row = PointRow {
                    number,
                    x,
                    y,
                    maxh: None,
                };
                self.place = Place::Points(PointPlace::End { row });
                Ok(())
            }
            PointPlace::End { row } => {
                if text::is_flag(word) {
                    return self.flag_point(row, at, word);
                }
                self.push_point(row)?;
                self.start_point(at, word)
            }
        }
    }

    /// A flag behind a row of the points.
    #[tactic(auto, unfolding(crate::specs::Steps::point_flag))]
    fn flag_point(&mut self, row: PointRow, at: u64, word: &[u8]) -> Result<(), In2dRefusal>
        requires { KnowsNumbers self.old }
        ensures step { Takes result (point_flag (draft_of self.old) row at word.now)
            (draft_of self.new) }
        ensures knows { OnOk result (KnowsNumbers self.new) }
    {
        let maxh = text::size_after(row.maxh, at, word)?;
        let row = PointRow { maxh, ..row };
        self.place = Place::Points(PointPlace::End { row });
        Ok(())
    }

    /// A row of the points ends.
    fn push_point(&mut self, row: PointRow) -> Result<(), In2dRefusal>
        requires { KnowsNumbers self.old }
        ensures ok { OnOk result (draft_of self.new ≡ with_point (draft_of self.old) row) }
        ensures err { IfErr result (λ e. e ≡ Memory) }
        ensures knows { OnOk result (KnowsNumbers self.new) }
    {
        self.known.insert(row.number)?;
        self.points.push(row)?;
        Ok(())
    }

    /// The word `segments`, or the first word of a row of the points.
    #[tactic(auto, unfolding(crate::specs::Steps::point_start, crate::specs::Words::segments_word))]
    fn start_point(&mut self, at: u64, word: &[u8]) -> Result<(), In2dRefusal>
        requires { KnowsNumbers self.old }
        ensures step { Takes result (point_start true (draft_of self.old) at word.now)
            (draft_of self.new) }
        ensures knows { OnOk result (KnowsNumbers self.new) }
    {
        if text::is(word, b"segments") {
            self.place = Place::Segments(SegmentPlace::Start);
            return Ok(());
        }
        let number = text::whole_first(word, 999_999, at)?;
        self.new_point(at, number)
    }

    /// A row of the points begins with this number: TooMany past the limit, NumberTwice where it stood before.
    #[tactic(auto, unfolding(crate::specs::Steps::new_point))]
    fn new_point(&mut self, at: u64, number: u32) -> Result<(), In2dRefusal>
        requires { KnowsNumbers self.old }
        ensures step { Takes result (new_point true (draft_of self.old) at number)
            (draft_of self.new) }
        ensures knows { OnOk result (KnowsNumbers self.new) }
    {
        if self.points.len() >= MOST_ROWS {
            return Err(In2dRefusal::TooMany { what: 1 });
        }
        if self.known.contains(&number) {
            return Err(In2dRefusal::NumberTwice { word: at });
        }
        self.place = Place::Points(PointPlace::X { number });
        Ok(())
    }

    /// Takes a word of the segments.
    #[tactic(auto, unfolding(crate::specs::Steps::segment_step))]
    fn take_segment(&mut self, place: SegmentPlace, at: u64, word: &[u8]) -> Result<(), In2dRefusal>
        requires { KnowsNumbers self.old }
        ensures step { Takes result (segment_step true (draft_of self.old) place at word.now)
            (draft_of self.new) }
        ensures knows { OnOk result (KnowsNumbers self.new) }
    {
        self.place = Place::Segments(match place {
            SegmentPlace::Start => return self.start_segment(at, word),
            SegmentPlace::Right { left } => {
                let right = text::whole_inside(word, 64, at)?;
                SegmentPlace::Shape { left, right }
            }
            SegmentPlace::Shape { left, right } => return self.shape(left, right, at, word),
            SegmentPlace::From { left, right } => {
                let p = text::whole_inside(word, 999_999, at)?;
                SegmentPlace::To { left, right, p }
            }
            SegmentPlace::To { left, right, p } => {
                let q = text::whole_inside(word, 999_999, at)?;
                SegmentPlace::End {
                    row: segment(left, right, p, q),
                }
            }
            SegmentPlace::End { row } => return self.after_segment(row, at, word),
        });
        Ok(())
    }

    /// What follows a row of the segments.
    #[tactic(auto, unfolding(crate::specs::Steps::segment_step))]
    fn after_segment(&mut self, row: SegmentRow, at: u64, word: &[u8]) -> Result<(), In2dRefusal>
        requires { KnowsNumbers self.old }
        ensures step { Takes result (segment_step true (draft_of self.old)
            (SegmentPlace.End row) at word.now) (draft_of self.new) }
        ensures knows { OnOk result (KnowsNumbers self.new) }
    {
        if text::is_flag(word) {
            return self.flag_segment(row, at, word);
        }
        self.push_segment(row)?;
        self.start_segment(at, word)
    }

    /// The word `2`; the word `3` is of a curved segment.
    #[tactic(auto, unfolding(crate::specs::Steps::shape_step, crate::specs::Words::two_word, crate::specs::Words::three_word))]
    fn shape(&mut self, left: u32, right: u32, at: u64, word: &[u8]) -> Result<(), In2dRefusal>
        requires { KnowsNumbers self.old }
        ensures step { Takes result (shape_step (draft_of self.old) left right at word.now)
            (draft_of self.new) }
        ensures knows { OnOk result (KnowsNumbers self.new) }
    {
        if text::is(word, b"2") {
            self.place = Place::Segments(SegmentPlace::From { left, right });
            return Ok(());
        }
        if text::is(word, b"3") {
            let segment = self.segments.len() as u64 + 1;
            return Err(In2dRefusal::Curved { segment });
        }
        Err(In2dRefusal::Number { word: at })
    }

    /// A flag behind a row of the segments.
    #[tactic(auto, unfolding(crate::specs::Steps::segment_flag))]
    fn flag_segment(&mut self, row: SegmentRow, at: u64, word: &[u8]) -> Result<(), In2dRefusal>
        requires { KnowsNumbers self.old }
        ensures step { Takes result (segment_flag (draft_of self.old) row at word.now)
            (draft_of self.new) }
        ensures knows { OnOk result (KnowsNumbers self.new) }
    {
        let bc = text::number_after(row.bc, at, word)?;
        let maxh = text::size_after(row.maxh, at, word)?;
        let row = SegmentRow { bc, maxh, ..row };
        self.place = Place::Segments(SegmentPlace::End { row });
        Ok(())
    }

    /// A row of the segments ends.
    fn push_segment(&mut self, row: SegmentRow) -> Result<(), In2dRefusal>
        requires { KnowsNumbers self.old }
        ensures ok { OnOk result (draft_of self.new ≡ with_segment (draft_of self.old) row) }
        ensures err { IfErr result (λ e. e ≡ Memory) }
        ensures knows { OnOk result (KnowsNumbers self.new) }
    {
        self.segments.push(row)?;
        Ok(())
    }

    /// The word `materials`, or the first word of a row of the segments.
    #[tactic(auto, unfolding(crate::specs::Steps::segment_start, crate::specs::Words::materials_word))]
    fn start_segment(&mut self, at: u64, word: &[u8]) -> Result<(), In2dRefusal>
        requires { KnowsNumbers self.old }
        ensures step { Takes result (segment_start true (draft_of self.old) at word.now)
            (draft_of self.new) }
        ensures knows { OnOk result (KnowsNumbers self.new) }
    {
        if text::is(word, b"materials") {
            self.place = Place::Materials(MaterialPlace::Start);
            return Ok(());
        }
        let left = text::whole_first(word, 64, at)?;
        self.new_segment(left)
    }

    /// A row of the segments begins with this left domain: TooMany past the limit.
    #[tactic(auto, unfolding(crate::specs::Steps::new_segment))]
    fn new_segment(&mut self, left: u32) -> Result<(), In2dRefusal>
        requires { KnowsNumbers self.old }
        ensures step { Takes result (new_segment true (draft_of self.old) left)
            (draft_of self.new) }
        ensures knows { OnOk result (KnowsNumbers self.new) }
    {
        if self.segments.len() >= MOST_ROWS {
            return Err(In2dRefusal::TooMany { what: 2 });
        }
        self.place = Place::Segments(SegmentPlace::Right { left });
        Ok(())
    }

    /// Takes a word of the materials.
    #[tactic(auto, unfolding(crate::specs::Steps::material_step, crate::specs::Steps::material_flag))]
    fn take_material(
        &mut self,
        alloc: Global,
        place: MaterialPlace<'a>,
        at: u64,
        word: &'a [u8],
    ) -> Result<(), In2dRefusal>
        requires { KnowsNumbers self.old }
        ensures step { Takes result (material_step (draft_of self.old)
            (material_spot place.entry) at word.now) (draft_of self.new) }
        ensures knows { OnOk result (KnowsNumbers self.new) }
    {
        match place {
            MaterialPlace::Start => self.start_material(at, word),
            MaterialPlace::Name { domain } => {
                if !text::is_name(word) {
                    return Err(In2dRefusal::Syntax { word: at });
                }
                self.place = Place::Materials(MaterialPlace::End {
                    domain,
                    name: word,
                    maxh: None,
                });
                Ok(())
            }
            MaterialPlace::End { domain, name, maxh } => {
                if text::is_flag(word) {
                    let maxh = text::size_after(maxh, at, word)?;
                    self.place = Place::Materials(MaterialPlace::End { domain, name, maxh });
                    return Ok(());
                }
                self.push_material(alloc, domain, name, maxh)?;
                self.start_material(at, word)
            }
        }
    }

    /// A row of the materials ends.
    fn push_material(
        &mut self,
        alloc: Global,
        domain: u32,
        name: &[u8],
        maxh: Option<Dec>,
    ) -> Result<(), In2dRefusal>
        requires { KnowsNumbers self.old }
        ensures ok { OnOk result (draft_of self.new ≡ with_material (draft_of self.old)
            (record { domain = domain; name = name.now; maxh = maxh })) }
        ensures err { IfErr result (λ e. e ≡ Memory) }
        ensures knows { OnOk result (KnowsNumbers self.new) }
    {
        let name = Name::from_vec(Vec::from_slice(alloc, name)?);
        self.materials.push(MaterialRow { domain, name, maxh })?;
        Ok(())
    }

    /// The first word of a row of the materials.
    #[tactic(auto, unfolding(crate::specs::Steps::material_start))]
    fn start_material(&mut self, at: u64, word: &[u8]) -> Result<(), In2dRefusal>
        requires { KnowsNumbers self.old }
        ensures step { Takes result (material_start (draft_of self.old) at word.now)
            (draft_of self.new) }
        ensures knows { OnOk result (KnowsNumbers self.new) }
    {
        match text::from_one(word, 64) {
            None => Err(In2dRefusal::Syntax { word: at }),
            Some(domain) => {
                self.place = Place::Materials(MaterialPlace::Name { domain });
                Ok(())
            }
        }
    }

    /// The row at hand ends, and with it the text, which has no word number `at`.
    #[tactic(auto, unfolding(crate::specs::Steps::finish, crate::specs::Steps::finish_spot))]
    fn close(&mut self, alloc: Global, at: u64) -> Result<(), In2dRefusal>
        requires { KnowsNumbers self.old }
        ensures finish { Takes result (finish (draft_of self.old) at)
            (whole_raw (draft_of self.new)) }
        ensures knows { OnOk result (KnowsNumbers self.new) }
    {
        match self.place {
            Place::Segments(SegmentPlace::Start) | Place::Materials(MaterialPlace::Start) => Ok(()),
            Place::Segments(SegmentPlace::End { row }) => self.push_segment(row),
            Place::Materials(MaterialPlace::End { domain, name, maxh }) => {
                self.push_material(alloc, domain, name, maxh)
            }
            _ => Err(In2dRefusal::Syntax { word: at }),
        }
    }

    /// Refuses the first segment that names a point that is not there.
    #[tactic(auto, unfolding(crate::specs::Steps::known_from))]
    fn check_points(&self) -> Result<(), In2dRefusal>
        requires { KnowsNumbers self.now }
        ensures { result ≡ known_from self.now.points.items 1 self.now.segments.items }
    {
        let mut segment = 1;
        for row in &self.segments {
            if !self.has_ends(*row) {
                return Err(In2dRefusal::UnknownPoint { segment });
            }
            segment += 1;
        }
        Ok(())
    }

    /// Whether a segment goes from a point to a point.
    fn has_ends(&self, row: SegmentRow) -> bool
        requires { KnowsNumbers self.now }
        ensures { result ≡ (is_known row.p self.now.points.items
            && is_known row.q self.now.points.items) }
    {
        self.known.contains(&row.p) && self.known.contains(&row.q)
    }

    /// What has been read, as a geometry.
    fn into_raw(self) -> RawGeometry
        ensures { result ≡ whole_raw (draft_of self.entry) }
    {
        RawGeometry {
            number: self.number,
            points: PointRows::from_vec(self.points),
            segments: SegmentRows::from_vec(self.segments),
            materials: MaterialRows::from_vec(self.materials),
        }
    }

    /// The geometry at the end of the text, which has no word number `at`.
    pub fn finish(mut self, alloc: Global, at: u64) -> Result<RawGeometry, In2dRefusal>
        requires { KnowsNumbers self }
        ensures { Gives (λ raw. raw) result (finished (draft_of self.entry) at) }
    {
        self.close(alloc, at)?;
        self.check_points()?;
        Ok(self.into_raw())
    }
}

/// A segment without flags.
fn segment(left: u32, right: u32, p: u32, q: u32) -> SegmentRow
    ensures { result ≡ record { left = left; right = right; p = p; q = q; bc = None; maxh = None } }
{
    SegmentRow {
        left,
        right,
        p,
        q,
        bc: None,
        maxh: None,
    }
}
