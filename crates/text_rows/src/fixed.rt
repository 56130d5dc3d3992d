// Numbers with a fixed number of decimals.

ghost use Rattle.std.specs.Prelude.{◌≤◌};
ghost use Rattle.std.specs.Fmt.{decimal, sign_text};
ghost use Rattle.text_rows.specs.Rows.{Appends};
ghost use Rattle.text_rows.specs.Fixed.{last_digits, fraction, fixed};

use std::alloc::AllocError;

/// Appends `number` divided by 10^`places`, exactly: `-` where it is below 0, at least one digit,
/// and where `places` is not 0 a point and exactly `places` digits.
pub fn write_fixed(text: &mut String, number: &i128, places: u32) -> Result<(), AllocError>
    requires { places ≤ 38 }
    ensures { Appends result text.old text.new (fixed number.now places) }
{
    let magnitude = number.unsigned_abs();
    write_sign(text, *number < 0)?;
    write_magnitude(text, magnitude / 10u128.pow(places))?;
    write_fraction(text, magnitude, places)?;
    Ok(())
}

fn write_sign(text: &mut String, negative: bool) -> Result<(), AllocError>
    ensures { Appends result text.old text.new (sign_text negative) }
{
    if negative {
        text.push_str("-")?;
    }
    Ok(())
}

fn write_magnitude(text: &mut String, number: u128) -> Result<(), AllocError>
    ensures { Appends result text.old text.new (decimal number) }
{
    write!(text, "{number}")?;
    Ok(())
}

fn write_fraction(text: &mut String, number: u128, places: u32) -> Result<(), AllocError>
    ensures { Appends result text.old text.new (fraction number places) }
{
    if places == 0 {
        return Ok(());
    }
    text.push_str(".")?;
    write_last_digits(text, number, places)?;
    Ok(())
}

fn write_last_digits(text: &mut String, number: u128, places: u32) -> Result<(), AllocError>
    ensures { Appends result text.old text.new (last_digits number places) }
{
    if places == 0 {
        return Ok(());
    }
    write_last_digits(text, number / 10, places - 1)?;
    write_magnitude(text, number % 10)?;
    Ok(())
}
