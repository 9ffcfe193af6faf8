// Registers 0 and 1, which every mapping has.
ghost use Rattle.std.specs.Prelude.{◌≡◌, List, [], ◌∷◌};
ghost use Rattle.mapping.specs.Registers.{cleared, register_answer, registers_after};
ghost use Rattle.mapping.specs.Common.{common_widths, common_values};

use crate::refusal::RegisterRefusal;
use crate::register::Register;

#[derive(Drop)]
pub struct CommonRegisters {
    image_size: Register<32>,
    // the page of the memory below where the page table starts
    table_page: Register<28>,
}

impl CommonRegisters {
    pub fn new() -> CommonRegisters
        ensures { common_values result ≡ cleared common_widths }
    {
        CommonRegisters {
            image_size: Register::new(),
            table_page: Register::new(),
        }
    }

    pub fn image_size(&self) -> u64
        ensures { result ≡ self.now.image_size.value }
    {
        self.image_size.get()
    }

    pub fn table_page(&self) -> u64
        ensures { result ≡ self.now.table_page.value }
    {
        self.table_page.get()
    }

    // Replaces one register, or refuses and changes none.
    pub fn write(&mut self, number: u64, value: u64) -> Result<(), RegisterRefusal>
        ensures answer { result ≡ register_answer common_widths number value }
        ensures after { common_values self.new ≡ registers_after common_widths (common_values self.old) number value }
    {
        match number {
            0 => self.image_size.write(value),
            1 => self.table_page.write(value),
            _ => Err(RegisterRefusal::NoRegister),
        }
    }
}
