// Armed registers are a mapping, whichever mapping's they are: what all mappings answer alike stands here once.
ghost use Rattle.std.specs.Prelude.{◌≡◌, ℕ, refl};
ghost use Rattle.std.specs.Option.{option_map};
ghost use Rattle.mapping.specs.Rules.{layout_of, placed};
ghost use Rattle.mapping.specs.Arming.{ArmedValues};
ghost use Rattle.mapping.specs.Laws.{Lawful};

use crate::address::{PseudoVirtualAddress, WindowAddress};
use crate::arming::check_arming;
use crate::contract::{Mapping, RegisterRecord};
use crate::refusal::ArmingRefusal;

// What a mapping's registers say of the image: all that one mapping has and another has not.
pub trait Addressing: RegisterRecord {
    // The type number.
    const TYPE_NUMBER: u8;

    // The same for clauses, as in `Mapping`.
    ghost TYPE_NUMBER: { ℕ };

    fn grain(&self) -> u64
        ensures { result ≡ Self.rules.grain (Self.values self.now) };

    // Where a byte of the image stands in the data, or nothing. Registers that have armed divide by no 0 and place it below 2^64. That
    // the byte is inside the image each mapping tests itself: a call may ask that it is given what has armed, and nothing of an address.
    fn place(&self, s: WindowAddress) -> Option<PseudoVirtualAddress>
        requires { ArmedValues Self.rules (Self.values self.now) }
        ensures { option_map (λ v. v.0) result ≡ placed Self.rules (Self.values self.now) s.0 };

    // The extent of registers that have armed. A record that has its extent apart from the condition gives just that, and does not test
    // again what arming has tested.
    fn armed_extent(&self) -> u64
        requires { ArmedValues Self.rules (Self.values self.now) }
        ensures { result ≡ Self.rules.extent (Self.values self.now) }
    {
        self.checked_extent().unwrap()
    }

    ghost numbered: { TYPE_NUMBER ≡ Self.rules.type_number };

    ghost laws: { (r : Self) → ArmedValues Self.rules (Self.values r) → Lawful (layout_of Self.rules (Self.values r)) };
}

// Registers that have armed, as `armed` says of every one that arming made. Plain numbers: a stack of layers over borrowed bytes is not
// covered by the check where one of them holds a ghost field.
#[derive(Drop)]
pub struct ArmedRegisters<R: Addressing> {
    registers: R,
}

impl<R: Addressing> Mapping for ArmedRegisters<R> {
    type Registers = R;

    const TYPE_NUMBER: u8 = R::TYPE_NUMBER;

    ghost TYPE_NUMBER = { R.TYPE_NUMBER };

    ghost values = { λ m. R.values m.registers };

    ghost armed = { λ m. ArmedValues R.rules (R.values m.registers) };

    ghost meaning = { λ m. layout_of R.rules (R.values m.registers) };

    ghost numbered = { R.numbered };

    ghost passed = { λ m armed. armed };

    ghost meant = { λ m _. refl };

    ghost laws = { λ m. R.laws m.registers };

    fn arm(registers: R) -> Result<ArmedRegisters<R>, (ArmingRefusal, R)> {
        // The registers go into either answer, so a match and not two closures.
        match check_arming(&registers) {
            Ok(()) => Ok(ArmedRegisters { registers }),
            Err(refusal) => Err((refusal, registers)),
        }
    }

    fn image_size(&self) -> u64 {
        self.registers.common().image_size()
    }

    fn table_page(&self) -> u64 {
        self.registers.common().table_page()
    }

    fn grain(&self) -> u64 {
        self.registers.grain()
    }

    fn extent(&self) -> u64 {
        self.registers.armed_extent()
    }

    fn place(&self, s: WindowAddress) -> Option<PseudoVirtualAddress> {
        self.registers.place(s)
    }
}
