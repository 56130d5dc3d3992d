//! The normal text of a geometry.

ghost use Rattle.std.specs.Prelude.{◌≡◌, ◌++◌, ◌∷◌, [], ◌<◌, ◌^◌, ◌+◌, ◌-◌, OnOk, IfOk, replicate, length, take, drop, unsigned_abs, map};
ghost use Rattle.std.specs.List.{flat_map};
ghost use Rattle.std.specs.Fmt.{decimal};
ghost use Rattle.word_scan.specs.Scan.{words_of};
ghost use Rattle.word_scan.specs.Decimals.{sign_of, sign_text, spelling};
ghost use Rattle.in2d_reader.specs.Normal.{filled, plain_text, is_plain, head_lines, decimal_text, size_flags, number_flags, spaced, line_text, point_line, segment_line, material_line, material_lines, normal_text, CanPrint};
ghost use Rattle.in2d_reader.specs.Grammar.{Derives};

use crate::geometry::{MaterialRow, PointRow, RawGeometry, SegmentRow};
use std::alloc::{AllocError, Global};
use word_scan::Dec;

/// Writes a whole number.
fn put_number(alloc: Global, out: &mut Vec<u8>, n: u128) -> Result<(), AllocError>
    ensures { OnOk result (out.new.items ≡ out.old.items ++ decimal n) }
{
    let digits = format!(in alloc; "{n}")?;
    out.extend_from_slice(digits.as_bytes())?;
    Ok(())
}

/// A minus where the number is below nought.
fn put_sign(out: &mut Vec<u8>, n: &i128) -> Result<(), AllocError>
    ensures { OnOk result (out.new.items ≡ out.old.items ++ sign_text (sign_of n.now)) }
{
    if *n < 0 {
        out.push(b'-')?;
    }
    Ok(())
}

/// Digits with this number of them behind the point, and no point where there are none.
fn put_plain(
    alloc: Global,
    out: &mut Vec<u8>,
    digits: &[u8],
    places: usize,
) -> Result<(), AllocError>
    requires { places < 2 ^ 32 }
    ensures { OnOk result (out.new.items ≡ out.old.items ++ plain_text
        (filled places digits.now) places) }
{
    let mut all = vec![in alloc; b'0'; (places + 1).saturating_sub(digits.len())]?;
    all.extend_from_slice(digits)?;
    let (front, behind) = all.split_at(all.len() - places);
    out.extend_from_slice(front)?;
    if places > 0 {
        out.push(b'.')?;
        out.extend_from_slice(behind)?;
    }
    Ok(())
}

/// The power of ten of a decimal.
fn put_power(alloc: Global, out: &mut Vec<u8>, dec: &Dec) -> Result<(), AllocError>
    ensures { OnOk result (out.new.items ≡ out.old.items ++
        (101 ∷ (sign_text (sign_of dec.now.scale) ++ decimal (unsigned_abs dec.now.scale)))) }
{
    out.push(b'e')?;
    put_sign(out, &i128::from(dec.scale))?;
    put_number(alloc, out, u128::from(dec.scale.unsigned_abs()))?;
    Ok(())
}

/// A decimal, plainly where its scale is from -20 to 0.
fn put_decimal(alloc: Global, out: &mut Vec<u8>, dec: &Dec) -> Result<(), AllocError>
    ensures { OnOk result (out.new.items ≡ out.old.items ++ decimal_text dec.now) }
{
    put_sign(out, &dec.digits)?;
    let digits = format!(in alloc; "{}", size_of(dec))?;
    if is_plain(dec) {
        put_plain(alloc, out, digits.as_bytes(), places_of(dec))?;
        return Ok(());
    }
    out.extend_from_slice(digits.as_bytes())?;
    put_power(alloc, out, dec)?;
    Ok(())
}

/// The size of a decimal's digits.
fn size_of(dec: &Dec) -> u128
    ensures { result ≡ unsigned_abs dec.now.digits }
{
    dec.digits.unsigned_abs()
}

/// How many digits a plain decimal has behind its point.
fn places_of(dec: &Dec) -> usize
    ensures value { result ≡ unsigned_abs dec.now.scale }
    ensures small { result < 2 ^ 32 }
{
    dec.scale.unsigned_abs() as usize
}

/// Whether a decimal is written plainly, and not with an exponent.
fn is_plain(dec: &Dec) -> bool
    ensures { result ≡ is_plain dec.now.scale }
{
    dec.scale >= -20 && dec.scale <= 0
}

/// Writes the flag of a size, where there is one.
#[tactic(auto, unfolding(crate::specs::Words::maxh_text))]
fn put_size(alloc: Global, out: &mut Vec<u8>, maxh: &Option<Dec>) -> Result<(), AllocError>
    ensures { OnOk result (out.new.items ≡ out.old.items ++ spaced (size_flags maxh.now)) }
{
    if let Some(dec) = maxh {
        out.extend_from_slice(b" -maxh=")?;
        put_decimal(alloc, out, dec)?;
    }
    Ok(())
}

/// Writes the flag of a boundary condition, where there is one.
#[tactic(auto, unfolding(crate::specs::Words::bc_text))]
fn put_condition(alloc: Global, out: &mut Vec<u8>, bc: &Option<u32>) -> Result<(), AllocError>
    ensures { OnOk result (out.new.items ≡ out.old.items ++ spaced (number_flags bc.now)) }
{
    if let Some(number) = bc {
        out.extend_from_slice(b" -bc=")?;
        put_number(alloc, out, u128::from(*number))?;
    }
    Ok(())
}

/// Writes the line of a point.
fn put_point(alloc: Global, out: &mut Vec<u8>, row: &PointRow) -> Result<(), AllocError>
    ensures { OnOk result (out.new.items ≡ out.old.items ++ line_text (point_line row.now)) }
{
    put_number(alloc, out, u128::from(row.number))?;
    out.push(b' ')?;
    put_decimal(alloc, out, &row.x)?;
    out.push(b' ')?;
    put_decimal(alloc, out, &row.y)?;
    put_size(alloc, out, &row.maxh)?;
    out.push(b'\n')?;
    Ok(())
}

/// A number, and a space behind it.
fn put_spaced(alloc: Global, out: &mut Vec<u8>, n: u32) -> Result<(), AllocError>
    ensures { OnOk result (out.new.items ≡ out.old.items ++ (decimal n ++ 32 ∷ [])) }
{
    put_number(alloc, out, u128::from(n))?;
    out.push(b' ')?;
    Ok(())
}

/// Writes the line of a segment.
#[tactic(auto, unfolding(crate::specs::Words::two_word))]
fn put_segment(alloc: Global, out: &mut Vec<u8>, row: &SegmentRow) -> Result<(), AllocError>
    ensures { OnOk result (out.new.items ≡ out.old.items ++ line_text (segment_line row.now)) }
{
    put_spaced(alloc, out, row.left)?;
    put_spaced(alloc, out, row.right)?;
    out.extend_from_slice(b"2 ")?;
    put_spaced(alloc, out, row.p)?;
    put_number(alloc, out, u128::from(row.q))?;
    put_flags(alloc, out, row)?;
    out.push(b'\n')?;
    Ok(())
}

/// The flags of a segment.
#[tactic(auto, using(crate::proofs::Texts::spaced_both))]
fn put_flags(alloc: Global, out: &mut Vec<u8>, row: &SegmentRow) -> Result<(), AllocError>
    ensures { OnOk result (out.new.items ≡ out.old.items ++ spaced
        (number_flags row.now.bc ++ size_flags row.now.maxh)) }
{
    put_condition(alloc, out, &row.bc)?;
    put_size(alloc, out, &row.maxh)?;
    Ok(())
}

/// Writes the line of a material.
fn put_material(alloc: Global, out: &mut Vec<u8>, row: &MaterialRow) -> Result<(), AllocError>
    ensures { OnOk result (out.new.items ≡ out.old.items ++ line_text (material_line row.now)) }
{
    put_spaced(alloc, out, row.domain)?;
    out.extend_from_slice(row.name.as_slice())?;
    put_size(alloc, out, &row.maxh)?;
    out.push(b'\n')?;
    Ok(())
}

/// Writes the lines of points.
fn put_points(alloc: Global, out: &mut Vec<u8>, rows: &[PointRow]) -> Result<(), AllocError>
    ensures { OnOk result (out.new.items ≡ out.old.items ++ flat_map line_text
        (map point_line rows.now)) }
{
    for row in rows {
        put_point(alloc, out, row)?;
    }
    Ok(())
}

/// Writes the lines of segments.
fn put_segments(alloc: Global, out: &mut Vec<u8>, rows: &[SegmentRow]) -> Result<(), AllocError>
    ensures { OnOk result (out.new.items ≡ out.old.items ++ flat_map line_text
        (map segment_line rows.now)) }
{
    for row in rows {
        put_segment(alloc, out, row)?;
    }
    Ok(())
}

/// Writes the lines of materials.
fn put_materials(alloc: Global, out: &mut Vec<u8>, rows: &[MaterialRow]) -> Result<(), AllocError>
    ensures { OnOk result (out.new.items ≡ out.old.items ++ flat_map line_text
        (map material_line rows.now)) }
{
    for row in rows {
        put_material(alloc, out, row)?;
    }
    Ok(())
}

/// The word `materials` and its rows, where there are some.
#[tactic(auto, unfolding(crate::specs::Words::materials_word))]
fn put_material_part(
    alloc: Global,
    out: &mut Vec<u8>,
    rows: &[MaterialRow],
) -> Result<(), AllocError>
    ensures { OnOk result (out.new.items ≡ out.old.items ++ flat_map line_text
        (material_lines rows.now)) }
{
    match rows {
        [] => Ok(()),
        [_, ..] => {
            out.extend_from_slice(b"materials\n")?;
            put_materials(alloc, out, rows)?;
            Ok(())
        }
    }
}

/// The first word, the number of the file, and the word `points`.
#[tactic(auto, unfolding(crate::specs::Words::head_word, crate::specs::Words::points_word))]
fn put_head(alloc: Global, out: &mut Vec<u8>, number: &Dec) -> Result<(), AllocError>
    ensures { OnOk result (out.new.items ≡ out.old.items ++ flat_map line_text
        (head_lines number.now)) }
{
    out.extend_from_slice(b"splinecurves2dv2\n")?;
    put_decimal(alloc, out, number)?;
    out.extend_from_slice(b"\npoints\n")?;
    Ok(())
}

/// The lines of a geometry.
#[tactic(auto, using(crate::proofs::Texts::texts_of_lines), unfolding(crate::specs::Words::segments_word))]
fn text_of(alloc: Global, g: &RawGeometry) -> Result<Vec<u8>, AllocError>
    ensures { IfOk result (λ text. text.items ≡ normal_text g.now) }
{
    let mut out = Vec::new(alloc);
    put_head(alloc, &mut out, &g.number)?;
    put_points(alloc, &mut out, g.points.as_slice())?;
    out.extend_from_slice(b"segments\n")?;
    put_segments(alloc, &mut out, g.segments.as_slice())?;
    put_material_part(alloc, &mut out, g.materials.as_slice())?;
    Ok(out)
}

/// The normal text of a geometry.
pub fn print_in2d(alloc: Global, g: &RawGeometry) -> Result<Vec<u8>, AllocError>
    requires { CanPrint g.now }
    ensures text { IfOk result (λ text. text.items ≡ normal_text g.now) }
    // It is derived again, with the value that was printed.
    ensures again { IfOk result (λ text. Derives (words_of text.items) g.now) }
{
    text_of(alloc, g)
}
