// Faults on their way up, and the numbers of causes.
use memory::{Cause, CustomCause, Fault};
use std::test::Fail;

#[test]
fn depth_stops_at_255(rt: HostRuntime) {
    let mut fault = Fault::here(Cause::PageOut, 77);
    for _ in 0..254 {
        fault = fault.passed_up();
    }
    assert_eq!(rt; fault.depth, 254);
    assert_eq!(rt; fault.passed_up().depth, 255);
    assert_eq!(rt; fault.passed_up().passed_up().depth, 255);
    assert_eq!(rt; fault.passed_up().place, 77);
    assert_eq!(rt; fault.passed_up().cause.number(), 5);
}

#[test]
fn free_causes_begin_at_7(rt: HostRuntime) -> Result<(), Fail> {
    assert_eq!(rt; CustomCause::new(0), None);
    assert_eq!(rt; CustomCause::new(6), None);
    let first = CustomCause::new(7).ok_or_else(|| Fail::new("7 is free"))?;
    let last = CustomCause::new(255).ok_or_else(|| Fail::new("255 is free"))?;
    assert_eq!(rt; Cause::Custom(first).number(), 7);
    assert_eq!(rt; Cause::Custom(last).number(), 255);
    Ok(())
}
