// Register sets. A set being written takes registers and is used up by arming it; an armed set holds the mapping.
ghost use Rattle.std.specs.Prelude.{◌≡◌, IfOk};
ghost use Rattle.std.specs.Result.{result_map_both, MatchResult};
ghost use Rattle.mapping.specs.Registers.{Fits, Fits_prop, cleared, register_answer, registers_after};
ghost use Rattle.mapping.specs.Laws.{Lawful};
ghost use Rattle.mapping.specs.Arming.{check_arming};

use crate::contract::{Mapping, RegisterRecord};
use crate::refusal::{ArmingRefusal, RegisterRefusal};

// A set being written.
#[derive(Drop)]
pub struct RegisterSet<M: Mapping> {
    registers: M::Registers,
    ghost fit: { Fits M.Registers.rules.widths (M.Registers.values registers) } by { Fits_prop M.Registers.rules.widths (M.Registers.values registers) },
}

// An armed set: whoever opens a window takes it whole.
#[derive(Drop)]
pub struct ArmedSet<M: Mapping> {
    mapping: M,
}

impl<M: Mapping> RegisterSet<M> {
    // A set whose registers are all 0.
    #[tactic(auto, using(crate::proofs::Widths::new_fits))]
    pub fn new() -> RegisterSet<M>
        ensures { M.Registers.values result.registers ≡ cleared M.Registers.rules.widths }
    {
        RegisterSet {
            registers: M::Registers::new(),
        }
    }

    // Replaces one register, or refuses and changes none.
    #[tactic(auto, using(crate::proofs::Widths::write_fits))]
    pub fn write(&mut self, number: u64, value: u64) -> Result<(), RegisterRefusal>
        ensures answer { result ≡ register_answer M.Registers.rules.widths number value }
        ensures after { M.Registers.values self.new.registers ≡ registers_after M.Registers.rules.widths (M.Registers.values self.old.registers) number value }
    {
        self.registers.write(number, value)
    }

    // Uses the set up, or refuses and hands it back as it was. What is armed keeps the laws of a mapping.
    pub fn arm(self) -> Result<ArmedSet<M>, (ArmingRefusal, RegisterSet<M>)>
        ensures answer { result_map_both (λ _. tt) (λ e. e.0) result ≡ check_arming M.Registers.rules (M.Registers.values self.registers) }
        ensures outcome { MatchResult result (λ a. M.armed a.mapping × (M.values a.mapping ≡ M.Registers.values self.registers)) (λ e. e.1.registers ≡ self.registers) }
        ensures laws { IfOk result (λ a. Lawful (M.meaning a.mapping)) }
    {
        // Both answers are taken apart, so a match and not two closures.
        match M::arm(self.registers) {
            Ok(mapping) => Ok(ArmedSet { mapping }),
            Err((refusal, registers)) => Err((refusal, RegisterSet { registers })),
        }
    }
}

impl<M: Mapping> ArmedSet<M> {
    // The mapping, which uses the set up.
    pub fn into_mapping(self) -> M
        ensures { result ≡ self.mapping }
    {
        self.mapping
    }
}
