// Plain and checked memory over borrowed bytes of several lengths.
ghost use Rattle.std.specs.Prelude.{◌≡◌, [], ◌∷◌};
ghost use Rattle.plain.specs.Plain.{updated};

use crate::suite::edges;
use checked::{Checked, flip};
use memory::{Cause, Fault, Memory};
use plain::Plain;
use std::test::Fail;

#[test]
fn plain_edges() -> Result<(), Fail> {
    let mut one_line = [0; 128];
    let mut with_part = [0; 300];
    edges(&mut Plain::new(&mut one_line), 128)?;
    edges(&mut Plain::new(&mut with_part), 256)
}

#[test]
fn checked_edges() -> Result<(), Fail> {
    let mut one_line = [0; 129];
    let mut with_part = [0; 386];
    edges(&mut Checked::new(&mut one_line), 128)?;
    edges(&mut Checked::new(&mut with_part), 256)
}

#[test]
fn no_line(rt: HostRuntime) {
    let mut short = [0; 127];
    let mut shorter = [0; 128];
    let mut plain = Plain::new(&mut short);
    let mut checked = Checked::new(&mut shorter);
    let mut one = [5];
    let refusal = Err(Fault::here(Cause::PastEnd, 0));
    assert_eq!(rt; plain.size(), 0);
    assert_eq!(rt; checked.size(), 0);
    assert_eq!(rt; plain.read(0, &mut one), refusal);
    assert_eq!(rt; checked.read(0, &mut one), refusal);
    assert_eq!(rt; one, [5]);
}

// One byte into borrowed bytes. Their owner knows each of them afterwards, from the contract of the memory alone.
fn poke(bytes: &mut [u8]) -> Result<(), Fault>
    ensures { bytes.new ≡ updated bytes.old 127 (1 ∷ []) }
{
    let mut plain = Plain::new(bytes);
    plain.write(127, &[1])
}

// The bytes after the last whole line stay, whatever is written before them.
#[test]
fn part_line_stays(rt: HostRuntime) {
    let mut bytes = [0xee; 200];
    assert_eq!(rt; poke(&mut bytes), Ok(()));
    assert_eq!(rt; bytes[126], 0xee);
    assert_eq!(rt; bytes[127], 1);
    assert_eq!(rt; bytes[128], 0xee);
    assert_eq!(rt; bytes[199], 0xee);
}

// A write brings the check byte up to date: 0xa5 alone is its line's exclusive or.
#[test]
fn check_byte_follows(rt: HostRuntime) {
    let mut bytes = [0; 129];
    let put = {
        let mut checked = Checked::new(&mut bytes);
        checked.write(5, &[0xa5])
    };
    assert_eq!(rt; put, Ok(()));
    assert_eq!(rt; bytes[5], 0xa5);
    assert_eq!(rt; bytes[128], 0xa5);
}

// A spoilt line refuses reads and writes, each with the address asked; the line beside it answers.
#[test]
fn spoilt_line_beside_a_good_one(rt: HostRuntime) {
    let mut bytes = [0; 258];
    flip(&mut bytes, 3, 7);
    let mut checked = Checked::new(&mut bytes);
    let mut two = [9; 2];
    assert_eq!(rt;
        checked.read(0, &mut two),
        Err(Fault::here(Cause::FailedCheck, 0))
    );
    assert_eq!(rt;
        checked.read(126, &mut two),
        Err(Fault::here(Cause::FailedCheck, 126))
    );
    assert_eq!(rt;
        checked.write(100, &[1]),
        Err(Fault::here(Cause::FailedCheck, 100))
    );
    assert_eq!(rt; two, [9, 9]);
    assert_eq!(rt; checked.read(128, &mut two), Ok(()));
    assert_eq!(rt; two, [0, 0]);
}
