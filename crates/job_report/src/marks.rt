//! Numbers with a mark behind them.
ghost use Rattle.std.specs.Prelude.{◌≡◌, ◌++◌, ◌∷◌, [], OnOk, decimal};

use std::alloc::AllocError;
use zone_text::push_decimal;

#[inline]
fn push_both(out: &mut Vec<u8>, first: u8, second: u8) -> Result<(), AllocError>
    ensures { OnOk result (out.new.items ≡ out.old.items ++ first ∷ second ∷ []) }
{
    out.extend_from_slice(&[first, second])
}

/// Pushes a number in decimal digits, and a mark behind it. One digit and its mark are pushed at once.
#[inline]
pub fn push_marked(out: &mut Vec<u8>, number: u64, mark: u8) -> Result<(), AllocError>
    ensures { OnOk result (out.new.items ≡ out.old.items ++ decimal number ++ mark ∷ []) }
{
    if number < 10 {
        return push_both(out, b'0' + number as u8, mark);
    }
    push_decimal(out, number)?;
    out.push(mark)?;
    Ok(())
}

#[inline]
fn push_three(out: &mut Vec<u8>, first: u8, second: u8, third: u8) -> Result<(), AllocError>
    ensures { OnOk result (out.new.items ≡ out.old.items ++ first ∷ second ∷ third ∷ []) }
{
    out.extend_from_slice(&[first, second, third])
}

/// Pushes a number in decimal digits between two marks. One digit and its marks are pushed at once.
#[inline]
pub fn push_between(
    out: &mut Vec<u8>,
    before: u8,
    number: u64,
    behind: u8,
) -> Result<(), AllocError>
    ensures { OnOk result (out.new.items ≡ out.old.items ++ before ∷ (decimal number ++ behind ∷ [])) }
{
    if number < 10 {
        return push_three(out, before, b'0' + number as u8, behind);
    }
    out.push(before)?;
    push_decimal(out, number)?;
    out.push(behind)?;
    Ok(())
}
