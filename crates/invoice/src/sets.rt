// Register sets: written, armed, and refused.
ghost use Rattle.std.specs.Prelude.{IfOk};

use crate::layout::Card;
use anyhow::{Context, bail};
use mapping::{ArmedSet, ArmingRefusal, Mapping, RegisterSet};
use stride::Stride;

// Writes the registers, from 0 on, and arms the set.
pub(crate) fn set_up<P: Mapping>(
    settings: &[u64],
) -> anyhow::Result<Result<ArmedSet<P>, ArmingRefusal>>
    ensures { IfOk result (λ answer. IfOk answer (λ set. P.Mapping.armed set.mapping)) }
{
    let mut set = RegisterSet::<P>::new();
    for (number, value) in (0..).zip(settings) {
        set.write(number, *value)?;
    }
    Ok(set.arm().map_err(|(refusal, _)| refusal))
}

// A set that arms.
pub(crate) fn armed_set<P: Mapping>(settings: &[u64]) -> anyhow::Result<ArmedSet<P>>
    ensures { IfOk result (λ set. P.Mapping.armed set.mapping) }
{
    set_up(settings)?.context("the mapping was not armed")
}

// Shows the stride mapping of the card. What arms here is shown and let go, since each window uses up a set of its own.
pub(crate) fn show_mapping(rt: &HostRuntime, card: Card) -> anyhow::Result<()> {
    println!(rt; "A stride mapping over them, by its registers:")?;
    let settings = card.stride_settings();
    show_registers(rt, &settings)?;
    let mapping = armed_set::<Stride>(&settings)?.into_mapping();
    let (number, size) = (Stride::TYPE_NUMBER, mapping.image_size());
    let (grain, extent) = (mapping.grain(), mapping.extent());
    println!(rt; "  armed: type {number}, image size {size}, grain {grain}, extent {extent}")?;
    Ok(())
}

pub(crate) fn show_registers(rt: &HostRuntime, settings: &[u64]) -> anyhow::Result<()> {
    for (number, value) in (0..).zip(settings) {
        let number: u64 = number;
        println!(rt; "  register {number} takes {value}")?;
    }
    Ok(())
}

// Three set-ups that are refused, and why.
pub(crate) fn show_refused_sets(rt: &HostRuntime) -> anyhow::Result<()> {
    println!(rt; "An image of 100 bytes is no whole line:")?;
    show_refused_set(rt, &[100, 0, 4, 128, 8], ArmingRefusal::BadImage)?;
    println!(rt; "An object of 4 bytes at offset 126 crosses the end of a line:")?;
    show_refused_set(rt, &[128, 0, 4, 256, 126], ArmingRefusal::BadCondition)?;
    println!(rt; "An image of 536871040 bytes, a line from each page, reaches too far:")?;
    show_refused_set(
        rt,
        &[536_871_040, 0, 128, 4096, 3968],
        ArmingRefusal::TooFar,
    )
}

// A set-up that is refused just so: any other answer is an error.
fn show_refused_set(rt: &HostRuntime, settings: &[u64], due: ArmingRefusal) -> anyhow::Result<()> {
    show_registers(rt, settings)?;
    match set_up::<Stride>(settings)? {
        Err(refusal) if refusal == due => Ok(println!(rt; "  not armed: {refusal}")?),
        Err(other) => bail!("the set-up was refused otherwise: {other}"),
        Ok(_) => bail!("the set-up was not refused"),
    }
}
