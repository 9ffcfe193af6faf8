// The set of a caller's register values.
ghost use Rattle.std.specs.Prelude.{◌≡◌, ◌≤◌, take, IfOk};
ghost use Rattle.std.specs.Result.{result_map_both};
ghost use Rattle.card_c.specs.Setup.{offered, layout_by};

use crate::answer::CardRefusal;
use card::{RegisterWrite, armed_set};
use mapping::{ArmedSet, Mapping};

// The set that is armed with these values, or why it is not.
pub(crate) fn armed_by<P: Mapping>(registers: &[u64; 5]) -> Result<ArmedSet<P>, CardRefusal>
    ensures layout { result_map_both (λ set. P.Mapping.meaning set.mapping) (λ e. e) result ≡ layout_by P.Registers.rules registers.now }
    ensures armed { IfOk result (λ set. P.Mapping.armed set.mapping) }
{
    let (writes, count) = offered(registers);
    match armed_set::<P>(&writes[..count]) {
        Ok(set) => Ok(set),
        Err(refusal) => Err(CardRefusal::of_set_up(refusal)),
    }
}

// The writes, first in the array, and how many they are. A register is 0 at the beginning, so only other values are written.
fn offered(registers: &[u64; 5]) -> ([RegisterWrite; 5], usize)
    ensures writes { take result.1 result.0 ≡ offered 0 registers.now }
    ensures few { result.1 ≤ 5 }
{
    let mut writes = [RegisterWrite {
        number: 0,
        value: 0,
    }; 5];
    let mut count = 0;
    for (number, value) in registers.iter().enumerate() {
        if *value != 0 {
            writes[count] = RegisterWrite {
                number: number as u64,
                value: *value,
            };
            count += 1;
        }
    }
    (writes, count)
}
