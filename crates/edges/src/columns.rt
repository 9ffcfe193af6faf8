// A column that is longer than its memory.
use memory::{Cause, Fault};
use plain::Plain;
use records::{read_prices, readable, total, write_price, write_records};
use std::test::Fail;

#[test]
fn three_records_in_two_lines(rt: HostRuntime) -> Result<(), Fail> {
    let mut bytes = [0; 300];
    let mut memory = Plain::new(&mut bytes);
    let put = write_records(&mut memory, &[4_294_967_295, 7, 9]);
    let readings = read_prices(rt.alloc(), &mut memory, 3)?;
    assert_eq!(rt; put, Err(Fault::here(Cause::PastEnd, 256)));
    assert!(rt; readings.len() == 3);
    assert_eq!(rt; readings[0], Ok(4_294_967_295));
    assert_eq!(rt; readings[1], Ok(7));
    assert_eq!(rt; readings[2], Err(Fault::here(Cause::PastEnd, 264)));
    assert_eq!(rt; readable(&readings), 2);
    assert_eq!(rt; total(&readings), Err(Fault::here(Cause::PastEnd, 264)));
    Ok(())
}

#[test]
fn a_total_past_32_bits(rt: HostRuntime) -> Result<(), Fail> {
    let mut bytes = [0; 256];
    let mut memory = Plain::new(&mut bytes);
    let put = write_records(&mut memory, &[4_294_967_295, 1]);
    let new = write_price(&mut memory, 1, 4_294_967_295);
    let far = write_price(&mut memory, 2, 1);
    let readings = read_prices(rt.alloc(), &mut memory, 2)?;
    assert_eq!(rt; put, Ok(()));
    assert_eq!(rt; new, Ok(()));
    assert_eq!(rt; far, Err(Fault::here(Cause::PastEnd, 264)));
    assert_eq!(rt; total(&readings), Ok(8_589_934_590));
    Ok(())
}
