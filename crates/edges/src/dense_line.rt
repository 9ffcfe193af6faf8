// The prices of a dense line, and their total.
use records::{line_total, price_at};

#[test]
fn prices_of_a_dense_line(rt: HostRuntime) {
    let mut line = [255; 128];
    line[0] = 0;
    line[127] = 0;
    assert_eq!(rt; price_at(&line, 0), Some(16_777_215));
    assert_eq!(rt; price_at(&line, 31), Some(4_294_967_040));
    assert_eq!(rt; price_at(&line, 32), None);
    assert_eq!(rt; line_total(&line), 133_160_763_105);
}
