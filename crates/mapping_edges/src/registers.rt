// Which registers a mapping has, and how wide they are; its type number; the refusals' numbers.
ghost use Rattle.std.specs.Prelude.{◌≡◌};

use crate::setup::offer;
use colour::Colour;
use direct::Direct;
use expect::same;
use mapping::{ArmingRefusal, Mapping, RegisterRefusal};
use std::test::Fail;
use stride::Stride;
use transpose::Transpose;

// Each register takes its largest value and refuses the next; there is no register after the last.
fn check_widths<M: Mapping>(widths: &[u32]) -> Result<(), Fail> {
    let no_register = Err(RegisterRefusal::NoRegister);
    let too_wide = Err(RegisterRefusal::TooWide);
    for (number, width) in (0..).zip(widths) {
        let limit = 1u64
            .checked_shl(*width)
            .ok_or_else(|| Fail::new("a register has at most 63 bits"))?;
        // The check does not see that a power of two is above 0.
        if limit == 0 {
            return Err(Fail::new("a power of two is not 0"));
        }
        same(offer::<M>(number, limit - 1), Ok(()))?;
        same(offer::<M>(number, limit), too_wide)?;
        same(offer::<M>(number, u64::MAX), too_wide)?;
    }
    same(offer::<M>(widths.len() as u64, 0), no_register)?;
    same(offer::<M>(u64::MAX, u64::MAX), no_register)
}

#[test]
fn widths() -> Result<(), Fail> {
    check_widths::<Direct>(&[32, 28])?;
    check_widths::<Colour>(&[32, 28, 32, 32, 32])?;
    check_widths::<Stride>(&[32, 28, 12, 16, 12])?;
    check_widths::<Transpose>(&[32, 28, 12, 32, 32])
}

#[test]
fn types() -> Result<(), Fail> {
    same(Direct::TYPE_NUMBER, 1)?;
    same(Colour::TYPE_NUMBER, 2)?;
    same(Stride::TYPE_NUMBER, 3)?;
    same(Transpose::TYPE_NUMBER, 4)
}

// What generic code reads of a mapping's type.
fn type_number<M: Mapping>() -> u8
    ensures { result ≡ M.Registers.rules.type_number }
{
    M::TYPE_NUMBER
}

#[test]
fn type_numbers() -> Result<(), Fail> {
    same(type_number::<Direct>(), 1)?;
    same(type_number::<Colour>(), 2)?;
    same(type_number::<Stride>(), 3)?;
    same(type_number::<Transpose>(), 4)
}

#[test]
fn refusal_numbers() -> Result<(), Fail> {
    same(RegisterRefusal::NoRegister.number(), 11)?;
    same(RegisterRefusal::TooWide.number(), 12)?;
    same(ArmingRefusal::BadImage.number(), 13)?;
    same(ArmingRefusal::BadCondition.number(), 14)?;
    same(ArmingRefusal::TooFar.number(), 15)
}
