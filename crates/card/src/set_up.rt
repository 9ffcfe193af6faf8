// A set, written and armed.
ghost use Rattle.std.specs.Prelude.{◌≡◌, IfOk};
ghost use Rattle.std.specs.Result.{result_map_both};
ghost use Rattle.mapping.specs.Registers.{cleared};
ghost use Rattle.card.specs.SetUp.{registers_written, values_armed};

use crate::refusal::{RegisterWrite, SetUpRefusal};
use mapping::{ArmedSet, Mapping, RegisterSet};

// The set that these writes fill, armed, or the first refusal.
pub fn armed_set<P: Mapping>(writes: &[RegisterWrite]) -> Result<ArmedSet<P>, SetUpRefusal>
    ensures values { result_map_both (λ set. P.Mapping.values set.mapping) (λ e. e) result ≡ values_armed P.Registers.rules writes.now }
    ensures armed { IfOk result (λ set. P.Mapping.armed set.mapping) }
{
    match written_set(writes)?.arm() {
        Ok(set) => Ok(set),
        Err((refusal, _)) => Err(SetUpRefusal::Arming(refusal)),
    }
}

// Offers each value to its register, up to the first that is refused.
#[tactic(auto, unfolding(crate::specs::SetUp::registers_written))]
fn written_set<P: Mapping>(writes: &[RegisterWrite]) -> Result<RegisterSet<P>, SetUpRefusal>
    ensures { result_map_both (λ set. P.Registers.values set.registers) (λ e. e) result ≡ registers_written P.Registers.rules.widths (cleared P.Registers.rules.widths) writes.now }
{
    let mut set = RegisterSet::new();
    for write in writes {
        if let Err(refusal) = set.write(write.number, write.value) {
            return Err(SetUpRefusal::Register(*write, refusal));
        }
    }
    Ok(set)
}
