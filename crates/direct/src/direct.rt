// Direct: the image is the data, byte by byte.
ghost use Rattle.std.specs.Prelude.{◌≡◌, refl};
ghost use Rattle.mapping.proofs.Laws.{is_lawful};
ghost use Rattle.direct.specs.Direct.{direct_rules, values};
ghost use Rattle.direct.specs.Laws.{is_addressed};

use mapping::{
    Addressing, ArmedRegisters, CommonRegisters, PseudoVirtualAddress, RegisterRecord,
    RegisterRefusal, WindowAddress,
};
use units::LINE;

// The mapping has no register of its own.
#[derive(Drop)]
pub struct DirectRegisters {
    common: CommonRegisters,
}

impl RegisterRecord for DirectRegisters {
    ghost rules = { direct_rules };

    ghost values = { values };

    ghost shared = { refl };

    fn new() -> DirectRegisters {
        DirectRegisters {
            common: CommonRegisters::new(),
        }
    }

    fn write(&mut self, number: u64, value: u64) -> Result<(), RegisterRefusal> {
        self.common.write(number, value)
    }

    fn common(&self) -> &CommonRegisters {
        &self.common
    }

    fn checked_extent(&self) -> Option<u64> {
        Some(self.common.image_size())
    }
}

impl Addressing for DirectRegisters {
    const TYPE_NUMBER: u8 = 1;

    ghost TYPE_NUMBER = { 1 };

    ghost numbered = { refl };

    // One form in each mapping, by the laws of its own rules; `is_lawful` has what all share.
    ghost laws = { λ r armed. is_lawful direct_rules (values r) refl armed (is_addressed (values r)) };

    fn grain(&self) -> u64 {
        LINE
    }

    fn place(&self, s: WindowAddress) -> Option<PseudoVirtualAddress> {
        (s.0 < self.common.image_size()).then_some(PseudoVirtualAddress(s.0))
    }
}

pub type Direct = ArmedRegisters<DirectRegisters>;
