// Stride: objects that stand one stride apart in the data, side by side in the image.
ghost use Rattle.std.specs.Prelude.{◌≡◌, ◌<◌, refl};
ghost use Rattle.mapping.specs.Registers.{Fits};
ghost use Rattle.mapping.proofs.Laws.{is_lawful};
ghost use Rattle.stride.specs.Stride.{stride_rules, values};
ghost use Rattle.stride.specs.Laws.{is_addressed};

use mapping::{
    Addressing, ArmedRegisters, CommonRegisters, PseudoVirtualAddress, Register, RegisterRecord,
    RegisterRefusal, WindowAddress, is_element_size,
};
use units::LINE;

// Registers by name, each of its width. A list of numbers would be shorter to write by number, and lose both.
#[derive(Drop)]
pub struct StrideRegisters {
    common: CommonRegisters,
    object_size: Register<12>,
    stride: Register<16>,
    object_offset: Register<12>,
}

impl StrideRegisters {
    // Each object stands inside its stride, and inside one line.
    fn condition(&self) -> bool
        requires { Fits stride_rules.widths (values self.now) }
        ensures { result ≡ stride_rules.condition (values self.now) }
    {
        let object_size = self.object_size.get();
        let stride = self.stride.get();
        let offset = self.object_offset.get();
        is_element_size(object_size)
            && stride != 0
            && stride % LINE == 0
            && offset + object_size <= stride
            && offset % LINE + object_size <= LINE
    }

    // The end of the last object.
    fn extent(&self) -> u64
        requires fit { Fits stride_rules.widths (values self.now) }
        requires divisor { 0 < self.now.object_size.value }
        ensures { result ≡ stride_rules.extent (values self.now) }
    {
        let object_size = self.object_size.get();
        let objects = self.common.image_size() / object_size;
        objects.saturating_sub(1) * self.stride.get() + self.object_offset.get() + object_size
    }
}

impl RegisterRecord for StrideRegisters {
    ghost rules = { stride_rules };

    ghost values = { values };

    ghost shared = { refl };

    fn new() -> StrideRegisters {
        StrideRegisters {
            common: CommonRegisters::new(),
            object_size: Register::new(),
            stride: Register::new(),
            object_offset: Register::new(),
        }
    }

    fn write(&mut self, number: u64, value: u64) -> Result<(), RegisterRefusal> {
        match number {
            2 => self.object_size.write(value),
            3 => self.stride.write(value),
            4 => self.object_offset.write(value),
            _ => self.common.write(number, value),
        }
    }

    fn common(&self) -> &CommonRegisters {
        &self.common
    }

    // As in each mapping with a condition: `extent` asks what `condition` found, so both are the record's own.
    fn checked_extent(&self) -> Option<u64> {
        self.condition().then(|| self.extent())
    }
}

impl Addressing for StrideRegisters {
    const TYPE_NUMBER: u8 = 3;

    ghost TYPE_NUMBER = { 3 };

    ghost numbered = { refl };

    // One form in each mapping, by the laws of its own rules; `is_lawful` has what all share.
    ghost laws = { λ r armed. is_lawful stride_rules (values r) refl armed (is_addressed (values r)) };

    fn grain(&self) -> u64 {
        self.object_size.get()
    }

    fn armed_extent(&self) -> u64 {
        self.extent()
    }

    fn place(&self, s: WindowAddress) -> Option<PseudoVirtualAddress> {
        let WindowAddress(s) = s;
        if s >= self.common.image_size() {
            return None;
        }
        let object_size = self.object_size.get();
        let start = s / object_size * self.stride.get() + self.object_offset.get();
        Some(PseudoVirtualAddress(start + s % object_size))
    }
}

pub type Stride = ArmedRegisters<StrideRegisters>;
