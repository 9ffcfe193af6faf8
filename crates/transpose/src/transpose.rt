// Transpose: a matrix that lies row by row in the data, column by column in the image.
ghost use Rattle.std.specs.Prelude.{◌≡◌, ◌<◌, refl};
ghost use Rattle.mapping.specs.Registers.{Fits};
ghost use Rattle.mapping.proofs.Laws.{is_lawful};
ghost use Rattle.transpose.specs.Transpose.{transpose_rules, values};
ghost use Rattle.transpose.specs.Laws.{is_addressed};

use mapping::{
    Addressing, ArmedRegisters, CommonRegisters, PseudoVirtualAddress, Register, RegisterRecord,
    RegisterRefusal, WindowAddress, is_element_size,
};
use units::is_power_of_two;

// Registers by name, each of its width. A list of numbers would be shorter to write by number, and lose both.
#[derive(Drop)]
pub struct TransposeRegisters {
    common: CommonRegisters,
    element_size: Register<12>,
    row_size: Register<32>,
    row_count: Register<32>,
}

impl TransposeRegisters {
    // Whole elements fill the rows, and the columns that are shown fill the image.
    fn condition(&self) -> bool
        requires { Fits transpose_rules.widths (values self.now) }
        ensures { result ≡ transpose_rules.condition (values self.now) }
    {
        let image_size = self.common.image_size();
        let element_size = self.element_size.get();
        let row_size = self.row_size.get();
        let row_count = self.row_count.get();
        is_element_size(element_size)
            && is_power_of_two(row_count)
            && row_size % element_size == 0
            && image_size % (element_size * row_count) == 0
            && image_size / row_count <= row_size
    }

    // The end of what is shown of the last row.
    fn extent(&self) -> u64
        requires fit { Fits transpose_rules.widths (values self.now) }
        requires divisor { 0 < self.now.row_count.value }
        ensures { result ≡ transpose_rules.extent (values self.now) }
    {
        let row_count = self.row_count.get();
        (row_count - 1) * self.row_size.get() + self.common.image_size() / row_count
    }
}

impl RegisterRecord for TransposeRegisters {
    ghost rules = { transpose_rules };

    ghost values = { values };

    ghost shared = { refl };

    fn new() -> TransposeRegisters {
        TransposeRegisters {
            common: CommonRegisters::new(),
            element_size: Register::new(),
            row_size: Register::new(),
            row_count: Register::new(),
        }
    }

    fn write(&mut self, number: u64, value: u64) -> Result<(), RegisterRefusal> {
        match number {
            2 => self.element_size.write(value),
            3 => self.row_size.write(value),
            4 => self.row_count.write(value),
            _ => self.common.write(number, value),
        }
    }

    fn common(&self) -> &CommonRegisters {
        &self.common
    }

    // As in each mapping with a condition: `extent` asks what `condition` found, so both are the record's own.
    fn checked_extent(&self) -> Option<u64> {
        self.condition().then(|| self.extent())
    }
}

impl Addressing for TransposeRegisters {
    const TYPE_NUMBER: u8 = 4;

    ghost TYPE_NUMBER = { 4 };

    ghost numbered = { refl };

    // One form in each mapping, by the laws of its own rules; `is_lawful` has what all share.
    ghost laws = { λ r armed. is_lawful transpose_rules (values r) refl armed (is_addressed (values r)) };

    fn grain(&self) -> u64 {
        self.element_size.get()
    }

    fn armed_extent(&self) -> u64 {
        self.extent()
    }

    fn place(&self, s: WindowAddress) -> Option<PseudoVirtualAddress> {
        let WindowAddress(s) = s;
        if s >= self.common.image_size() {
            return None;
        }
        let element_size = self.element_size.get();
        let row_count = self.row_count.get();
        let element = s / element_size;
        let start = element % row_count * self.row_size.get() + element / row_count * element_size;
        Some(PseudoVirtualAddress(start + s % element_size))
    }
}

pub type Transpose = ArmedRegisters<TransposeRegisters>;
