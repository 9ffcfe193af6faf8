// Which values arm, and with which refusal the others do not.
use crate::setup::arm;
use colour::Colour;
use direct::Direct;
use expect::{same, set_of};
use mapping::{ArmingRefusal, Mapping};
use std::test::Fail;
use stride::Stride;
use transpose::Transpose;

// The set arms.
const ARMS: Result<(), ArmingRefusal> = Ok(());

// The refusals 13, 14 and 15.
const BAD_IMAGE: Result<(), ArmingRefusal> = Err(ArmingRefusal::BadImage);

const BAD_CONDITION: Result<(), ArmingRefusal> = Err(ArmingRefusal::BadCondition);

const TOO_FAR: Result<(), ArmingRefusal> = Err(ArmingRefusal::TooFar);

// Registers 0 and 2 to 4 of a set, with what arming it answers.
fn check_cases<M: Mapping>(cases: &[([u64; 4], Result<(), ArmingRefusal>)]) -> Result<(), Fail> {
    for (values, expected) in cases {
        let [image, second, third, fourth] = *values;
        same(arm::<M>(&[image, 0, second, third, fourth]), *expected)?;
    }
    Ok(())
}

#[test]
fn images() -> Result<(), Fail> {
    same(arm::<Direct>(&[0]), BAD_IMAGE)?;
    same(arm::<Direct>(&[127]), BAD_IMAGE)?;
    same(arm::<Direct>(&[128]), ARMS)?;
    same(arm::<Direct>(&[129]), BAD_IMAGE)?;
    same(arm::<Direct>(&[4294967168, 268435455]), ARMS)
}

#[test]
fn strides() -> Result<(), Fail> {
    check_cases::<Stride>(&[
        ([128, 4, 128, 8], ARMS),
        // the image before the condition
        ([0, 0, 0, 0], BAD_IMAGE),
        ([64, 4, 128, 8], BAD_IMAGE),
        // B
        ([128, 0, 128, 0], BAD_CONDITION),
        ([128, 2, 128, 0], BAD_CONDITION),
        ([128, 5, 128, 0], BAD_CONDITION),
        ([128, 128, 128, 0], ARMS),
        ([128, 256, 256, 0], BAD_CONDITION),
        // D
        ([128, 4, 0, 0], BAD_CONDITION),
        ([128, 4, 127, 0], BAD_CONDITION),
        ([128, 4, 192, 0], BAD_CONDITION),
        ([128, 4, 256, 0], ARMS),
        // F + B ≤ D
        ([128, 4, 128, 124], ARMS),
        ([128, 4, 128, 128], BAD_CONDITION),
        // F mod 128 + B ≤ 128
        ([128, 4, 256, 125], BAD_CONDITION),
        ([128, 64, 256, 64], ARMS),
        ([128, 128, 256, 64], BAD_CONDITION),
        // the extent, after the condition
        ([536870912, 128, 4096, 3968], ARMS),
        ([536871040, 128, 4096, 3968], TOO_FAR),
        ([536871040, 129, 4096, 3968], BAD_CONDITION),
    ])
}

#[test]
fn transposes() -> Result<(), Fail> {
    check_cases::<Transpose>(&[
        ([128, 4, 32, 4], ARMS),
        // B
        ([128, 2, 32, 4], BAD_CONDITION),
        ([128, 6, 36, 4], BAD_CONDITION),
        ([512, 128, 128, 4], ARMS),
        ([1024, 256, 256, 4], BAD_CONDITION),
        // N
        ([128, 4, 32, 0], BAD_CONDITION),
        ([384, 4, 128, 3], BAD_CONDITION),
        ([128, 4, 128, 1], ARMS),
        // B divides D
        ([128, 4, 34, 4], BAD_CONDITION),
        ([128, 4, 36, 4], ARMS),
        // B × N divides I
        ([128, 4, 32, 32], ARMS),
        ([128, 4, 32, 64], BAD_CONDITION),
        // I / N ≤ D
        ([128, 4, 28, 4], BAD_CONDITION),
        // the extent
        ([128, 4, 2454267024, 8], ARMS),
        ([128, 4, 2454267028, 8], TOO_FAR),
    ])
}

#[test]
fn colours() -> Result<(), Fail> {
    check_cases::<Colour>(&[
        ([32768, 16384, 4096, 8192], ARMS),
        // W
        ([32768, 0, 4096, 0], BAD_CONDITION),
        ([32768, 2048, 2048, 0], BAD_CONDITION),
        ([4096, 4096, 4096, 0], ARMS),
        ([24576, 12288, 4096, 0], BAD_CONDITION),
        // C
        ([32768, 16384, 2048, 8192], BAD_CONDITION),
        ([32768, 16384, 12288, 0], BAD_CONDITION),
        ([32768, 16384, 16384, 0], ARMS),
        // F
        ([32768, 16384, 4096, 8191], BAD_CONDITION),
        ([32768, 16384, 4096, 10240], BAD_CONDITION),
        // F + C ≤ W
        ([32768, 16384, 4096, 12288], ARMS),
        ([32768, 16384, 4096, 16384], BAD_CONDITION),
        // W divides I
        ([16384, 16384, 4096, 8192], ARMS),
        ([32896, 16384, 4096, 8192], BAD_CONDITION),
        ([8192, 16384, 4096, 8192], BAD_CONDITION),
    ])
}

#[test]
fn mended() -> Result<(), Fail> {
    let Err((refusal, mut set)) = set_of::<Stride>(&[128, 7, 4, 128, 125]).arm() else {
        return Err(Fail::new("armed"));
    };
    same(refusal, ArmingRefusal::BadCondition)?;
    same(set.write(4, 124), Ok(()))?;
    let Ok(armed) = set.arm() else {
        return Err(Fail::new("not armed"));
    };
    let mapping = armed.into_mapping();
    same(mapping.image_size(), 128)?;
    same(mapping.table_page(), 7)?;
    same(mapping.grain(), 4)?;
    same(mapping.extent(), 4096)
}
