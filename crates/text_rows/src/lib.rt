//! How are words, numbers and rows of them appended to a text?
//!
//! Each call appends to the end of one `String`, in decimal digits and ASCII, and its clause says
//! exactly what was appended. The one error is want of memory; the text may then end in a part of
//! what was to be appended.
#![tactic(auto)]

ghost use Rattle.std.specs.Prelude.{◌≤◌, ◌++◌};
ghost use Rattle.std.specs.Fmt.{decimal, signed_decimal};
ghost use Rattle.text_rows.specs.Rows.{Appends, spaced, spaced_signed, row};

use std::alloc::AllocError;

mod fixed;

pub use fixed::write_fixed;

/// Appends a number: its digits, without leading noughts.
pub fn write_number(text: &mut String, number: u64) -> Result<(), AllocError>
    ensures { Appends result text.old text.new (decimal number) }
{
    write!(text, "{number}")?;
    Ok(())
}

/// Appends a whole number: `-` where it is below 0, then its digits.
pub fn write_signed(text: &mut String, number: &i64) -> Result<(), AllocError>
    ensures { Appends result text.old text.new (signed_decimal number.now) }
{
    write!(text, "{number}")?;
    Ok(())
}

/// Appends a whole number of up to 128 bits: `-` where it is below 0, then its digits.
pub fn write_wide(text: &mut String, number: &i128) -> Result<(), AllocError>
    ensures { Appends result text.old text.new (signed_decimal number.now) }
{
    write!(text, "{number}")?;
    Ok(())
}

/// Appends the numbers in their order, each after one space.
pub fn write_spaced(text: &mut String, numbers: &[u64]) -> Result<(), AllocError>
    ensures { Appends result text.old text.new (spaced numbers.now) }
{
    for number in numbers {
        text.push_str(" ")?;
        write_number(text, *number)?;
    }
    Ok(())
}

/// Appends the whole numbers in their order, each after one space.
pub fn write_spaced_signed(text: &mut String, numbers: &[i64]) -> Result<(), AllocError>
    ensures { Appends result text.old text.new (spaced_signed numbers.now) }
{
    for number in numbers {
        text.push_str(" ")?;
        write_signed(text, number)?;
    }
    Ok(())
}

/// Appends the whole numbers of up to 128 bits in their order, each after one space.
pub fn write_spaced_wide(text: &mut String, numbers: &[i128]) -> Result<(), AllocError>
    ensures { Appends result text.old text.new (spaced_signed numbers.now) }
{
    for number in numbers {
        text.push_str(" ")?;
        write_wide(text, number)?;
    }
    Ok(())
}

/// Appends a row: the word, the numbers of `front` and then those of `rest`, each after one space,
/// and a line feed.
pub fn write_row(
    text: &mut String,
    word: &str,
    front: &[u64],
    rest: &[u64],
) -> Result<(), AllocError>
    ensures { Appends result text.old text.new (row word.now (front.now ++ rest.now)) }
{
    text.push_str(word)?;
    write_spaced(text, front)?;
    write_spaced(text, rest)?;
    text.push_str("\n")?;
    Ok(())
}

/// Appends a row that begins with a number, in place of a word.
pub fn write_number_row(
    text: &mut String,
    first: u64,
    front: &[u64],
    rest: &[u64],
) -> Result<(), AllocError>
    ensures { Appends result text.old text.new (row (decimal first) (front.now ++ rest.now)) }
{
    write_number(text, first)?;
    write_row(text, "", front, rest)?;
    Ok(())
}

#[cfg(test)]
mod tests {
    use super::*;
    use std::alloc::Global;
    use std::test::Fail;

    #[test]
    fn appends_each_form(rt: HostRuntime) -> Result<(), Fail> {
        let mut text = String::new(rt.alloc());
        write_number(&mut text, u64::MAX)?;
        text.push_str(" ")?;
        write_signed(&mut text, &i64::MIN)?;
        text.push_str(" ")?;
        write_wide(&mut text, &i128::MIN)?;
        write_row(&mut text, " run", &[1, 20], &[])?;
        write_number_row(&mut text, 7, &[0], &[10, 0])?;
        write_spaced(&mut text, &[3, 4])?;
        write_spaced_signed(&mut text, &[-3, 0])?;
        write_spaced_wide(&mut text, &[-1, 1])?;
        let written =
            "18446744073709551615 -9223372036854775808 -170141183460469231731687303715884105728 \
            run 1 20\n7 0 10 0\n 3 4 -3 0 -1 1";
        assert_eq!(rt; text.as_str(), written);
        Ok(())
    }

    fn fixed_text(alloc: Global, number: i128, places: u32) -> Result<String, AllocError>
        requires { places ≤ 38 }
    {
        let mut text = String::new(alloc);
        write_fixed(&mut text, &number, places)?;
        Ok(text)
    }

    #[test]
    fn fixes_the_decimals(rt: HostRuntime) -> Result<(), Fail> {
        assert_eq!(rt; fixed_text(rt.alloc(), 0, 0)?.as_str(), "0");
        assert_eq!(rt; fixed_text(rt.alloc(), 0, 2)?.as_str(), "0.00");
        assert_eq!(rt; fixed_text(rt.alloc(), -5, 0)?.as_str(), "-5");
        assert_eq!(rt; fixed_text(rt.alloc(), -5, 2)?.as_str(), "-0.05");
        assert_eq!(rt; fixed_text(rt.alloc(), 12300, 4)?.as_str(), "1.2300");
        let smallest = fixed_text(rt.alloc(), i128::MIN, 38)?;
        assert_eq!(rt;
            smallest.as_str(),
            "-1.70141183460469231731687303715884105728"
        );
        Ok(())
    }
}
