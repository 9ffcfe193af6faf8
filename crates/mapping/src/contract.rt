// The contract of a mapping, and of the record of its registers.
ghost use Rattle.std.specs.Prelude.{◌≡◌, ℕ, List, take};
ghost use Rattle.std.specs.Option.{option_map};
ghost use Rattle.std.specs.Result.{result_map_both, MatchResult};
ghost use Rattle.mapping.specs.Registers.{Fits, cleared, register_answer, registers_after};
ghost use Rattle.mapping.specs.Common.{common_widths, common_values};
ghost use Rattle.mapping.specs.Rules.{Rules, Layout, layout_of, image_size, table_page, checked_extent};
ghost use Rattle.mapping.specs.Laws.{Lawful};
ghost use Rattle.mapping.specs.Arming.{check_arming, ArmedValues};

use crate::address::{PseudoVirtualAddress, WindowAddress};
use crate::common::CommonRegisters;
use crate::refusal::{ArmingRefusal, RegisterRefusal};

// The registers of a mapping.
pub trait RegisterRecord: Drop {
    // The rules of the mapping.
    ghost rules: { Rules };

    // The value of each register, by its number.
    ghost values: { Self → List ℕ };

    // Every register 0.
    fn new() -> Self
        ensures { values result ≡ cleared rules.widths };

    // Replaces one register, or refuses and changes none.
    fn write(&mut self, number: u64, value: u64) -> Result<(), RegisterRefusal>
        ensures answer { result ≡ register_answer rules.widths number value }
        ensures after { values self.new ≡ registers_after rules.widths (values self.old) number value };

    // Registers 0 and 1.
    fn common(&self) -> &CommonRegisters
        ensures { common_values result.now ≡ take 2 (values self.now) };

    // The extent, where the mapping's own condition holds.
    fn checked_extent(&self) -> Option<u64>
        requires { Fits rules.widths (values self.now) }
        ensures { result ≡ checked_extent rules (values self.now) };

    // Registers 0 and 1 are as wide as every mapping has them.
    ghost shared: { take 2 rules.widths ≡ common_widths };
}

// A mapping whose registers have armed.
pub trait Mapping: Drop {
    type Registers: RegisterRecord;

    // The type number.
    const TYPE_NUMBER: u8;

    // The same for clauses, which cannot name the constant; the check proves the two equal.
    ghost TYPE_NUMBER: { ℕ };

    // The values of the registers that it was armed from, by their number.
    ghost values: { Self → List ℕ };

    // Holds of every mapping that arming made.
    ghost armed: { Self → Type 0 };

    // What it means.
    ghost meaning: { Self → Layout };

    // The armed mapping, or the refusal with the registers as they were.
    fn arm(registers: Self::Registers) -> Result<Self, (ArmingRefusal, Self::Registers)>
        requires { Fits Self.Registers.rules.widths (Self.Registers.values registers) }
        ensures answer { result_map_both (λ _. tt) (λ e. e.0) result ≡ check_arming Self.Registers.rules (Self.Registers.values registers) }
        ensures outcome { MatchResult result (λ m. armed m × (values m ≡ Self.Registers.values registers)) (λ e. e.1 ≡ registers) };

    fn image_size(&self) -> u64
        requires { armed self.now }
        ensures { result ≡ (meaning self.now).image_size };

    // The page of the memory below where the page table starts.
    fn table_page(&self) -> u64
        requires { armed self.now }
        ensures { result ≡ (meaning self.now).table_page };

    fn grain(&self) -> u64
        requires { armed self.now }
        ensures { result ≡ (meaning self.now).grain };

    fn extent(&self) -> u64
        requires { armed self.now }
        ensures { result ≡ (meaning self.now).extent };

    // Where a byte of the image stands in the data. Nothing stands behind a byte outside a colour, or outside the image.
    fn place(&self, s: WindowAddress) -> Option<PseudoVirtualAddress>
        requires { armed self.now }
        ensures { option_map (λ v. v.0) result ≡ (meaning self.now).place s.0 };

    ghost numbered: { TYPE_NUMBER ≡ Self.Registers.rules.type_number };

    // What arming tested.
    ghost passed: { (m : Self) → armed m → ArmedValues Self.Registers.rules (values m) };

    ghost meant: { (m : Self) → armed m → meaning m ≡ layout_of Self.Registers.rules (values m) };

    ghost laws: { (m : Self) → armed m → Lawful (meaning m) };
}
