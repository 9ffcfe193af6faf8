// Page colour: the data is spread over the image so that it meets one part, a colour, of each way of a cache.
ghost use Rattle.std.specs.Prelude.{◌≡◌, ◌<◌, refl};
ghost use Rattle.mapping.specs.Registers.{Fits};
ghost use Rattle.mapping.proofs.Laws.{is_lawful};
ghost use Rattle.colour.specs.Colour.{colour_rules, values};
ghost use Rattle.colour.specs.Laws.{is_addressed};

use mapping::{
    Addressing, ArmedRegisters, CommonRegisters, PseudoVirtualAddress, Register, RegisterRecord,
    RegisterRefusal, WindowAddress,
};
use units::{LINE, PAGE, is_power_of_two};

// Registers by name, each of its width. A list of numbers would be shorter to write by number, and lose both.
#[derive(Drop)]
pub struct ColourRegisters {
    common: CommonRegisters,
    way_size: Register<32>,
    colour_size: Register<32>,
    colour_offset: Register<32>,
}

impl ColourRegisters {
    // The colour stands inside a way, and whole ways fill the image.
    fn condition(&self) -> bool
        requires { Fits colour_rules.widths (values self.now) }
        ensures { result ≡ colour_rules.condition (values self.now) }
    {
        let way_size = self.way_size.get();
        let colour_size = self.colour_size.get();
        let offset = self.colour_offset.get();
        is_power_of_two(way_size)
            && PAGE <= way_size
            && is_power_of_two(colour_size)
            && PAGE <= colour_size
            && offset % PAGE == 0
            && offset + colour_size <= way_size
            && self.common.image_size() % way_size == 0
    }

    // The end of the last way's colour.
    fn extent(&self) -> u64
        requires fit { Fits colour_rules.widths (values self.now) }
        requires divisor { 0 < self.now.way_size.value }
        ensures { result ≡ colour_rules.extent (values self.now) }
    {
        let ways = self.common.image_size() / self.way_size.get();
        ways * self.colour_size.get()
    }
}

impl RegisterRecord for ColourRegisters {
    ghost rules = { colour_rules };

    ghost values = { values };

    ghost shared = { refl };

    fn new() -> ColourRegisters {
        ColourRegisters {
            common: CommonRegisters::new(),
            way_size: Register::new(),
            colour_size: Register::new(),
            colour_offset: Register::new(),
        }
    }

    fn write(&mut self, number: u64, value: u64) -> Result<(), RegisterRefusal> {
        match number {
            2 => self.way_size.write(value),
            3 => self.colour_size.write(value),
            4 => self.colour_offset.write(value),
            _ => self.common.write(number, value),
        }
    }

    fn common(&self) -> &CommonRegisters {
        &self.common
    }

    // As in each mapping with a condition: `extent` asks what `condition` found, so both are the record's own.
    fn checked_extent(&self) -> Option<u64> {
        self.condition().then(|| self.extent())
    }
}

impl Addressing for ColourRegisters {
    const TYPE_NUMBER: u8 = 2;

    ghost TYPE_NUMBER = { 2 };

    ghost numbered = { refl };

    // One form in each mapping, by the laws of its own rules; `is_lawful` has what all share.
    ghost laws = { λ r armed. is_lawful colour_rules (values r) refl armed (is_addressed (values r)) };

    fn grain(&self) -> u64 {
        LINE
    }

    fn armed_extent(&self) -> u64 {
        self.extent()
    }

    fn place(&self, s: WindowAddress) -> Option<PseudoVirtualAddress> {
        let WindowAddress(s) = s;
        if s >= self.common.image_size() {
            return None;
        }
        let way_size = self.way_size.get();
        let colour_size = self.colour_size.get();
        let offset = self.colour_offset.get();
        let inner = s % way_size;
        if !(offset..offset + colour_size).contains(&inner) {
            return None;
        }
        Some(PseudoVirtualAddress(s / way_size * colour_size + inner - offset))
    }
}

pub type Colour = ArmedRegisters<ColourRegisters>;
