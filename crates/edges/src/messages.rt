// What is written of each cause, of a fault, of each refusal, and of each error in a list.
use expect::same;
use mapping::{ArmingRefusal, RegisterRefusal};
use memory::{Cause, CustomCause, Fault};
use prices::InputError;
use std::alloc::Global;
use std::fmt::Display;
use std::test::Fail;

fn says<T: Display + Drop>(heap: Global, value: T, text: &str) -> Result<(), Fail> {
    same(value.to_string(heap)?.as_str(), text)
}

#[test]
fn causes(rt: HostRuntime) -> Result<(), Fail> {
    let heap = rt.alloc();
    says(
        heap,
        Cause::BadRun,
        "the run does not fit one line (cause 1)",
    )?;
    says(heap, Cause::PastEnd, "the run passes the size (cause 2)")?;
    says(heap, Cause::Blank, "blank (cause 3)")?;
    says(heap, Cause::NoPage, "no page (cause 4)")?;
    says(heap, Cause::PageOut, "page out (cause 5)")?;
    says(heap, Cause::FailedCheck, "failed check (cause 6)")?;
    let custom = CustomCause::new(200).ok_or_else(|| Fail::new("200 is free"))?;
    says(
        heap,
        Cause::Custom(custom),
        "a cause of an added memory (cause 200)",
    )?;
    let fault = Fault::here(Cause::Blank, 8).passed_up();
    assert_eq!(rt;
        fault.to_string(heap)?.as_str(),
        "blank (cause 3), depth 1, place 8"
    );
    Ok(())
}

#[test]
fn errors(rt: HostRuntime) -> Result<(), Fail> {
    let heap = rt.alloc();
    says(
        heap,
        InputError::NoPrices,
        "line 1: there is no price at all",
    )?;
    says(heap, InputError::EmptyLine(3), "line 3: the line is empty")?;
    says(
        heap,
        InputError::NotADigit(12, b','),
        "line 12: ',' (byte 44) is no digit",
    )?;
    says(
        heap,
        InputError::NotADigit(1, b'\r'),
        "line 1: a carriage return (byte 13) is no digit",
    )?;
    says(
        heap,
        InputError::NotADigit(2, 200),
        "line 2: byte 200 is no digit",
    )?;
    says(
        heap,
        InputError::TooLarge(6),
        "line 6: the price is 4294967296 or more",
    )?;
    says(
        heap,
        InputError::TooMany(1025),
        "line 1025: there are more than 1024 prices",
    )?;
    says(
        heap,
        InputError::NoMemory,
        "there is not enough memory for the list",
    )
}

#[test]
fn refusals(rt: HostRuntime) -> Result<(), Fail> {
    let heap = rt.alloc();
    says(
        heap,
        RegisterRefusal::NoRegister,
        "the mapping has no register of this number (refusal 11)",
    )?;
    says(
        heap,
        RegisterRefusal::TooWide,
        "the value has more bits than the register (refusal 12)",
    )?;
    says(
        heap,
        ArmingRefusal::BadImage,
        "the image size is 0 or no multiple of 128 (refusal 13)",
    )?;
    says(
        heap,
        ArmingRefusal::BadCondition,
        "a condition of the mapping fails (refusal 14)",
    )?;
    says(
        heap,
        ArmingRefusal::TooFar,
        "the extent exceeds 2^34 (refusal 15)",
    )
}
