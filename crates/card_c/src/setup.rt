// What a caller chooses. Any numbers may come; those that choose nothing are refused.
ghost use Rattle.std.specs.Prelude.{◌≡◌};
ghost use Rattle.card_c.specs.Setup.{mapping_type, line_format, cache_place, choices};

use crate::answer::CardRefusal;

// Why a number is refused that chooses nothing. No other refusal has these.
const UNKNOWN_MAPPING: u64 = 31;

const UNKNOWN_FORMAT: u64 = 32;

const UNKNOWN_CACHE: u64 = 33;

// docs/linking.md, "Setting up", has the numbers.
#[repr(C)]
#[derive(Clone, Copy)]
pub struct CardSetup {
    // the type number of a mapping
    pub mapping: u64,
    // how bytes hold the lines
    pub format: u64,
    // where a cache stands
    pub cache: u64,
    // the values of the mapping's registers, by their numbers; 0 where it has none
    pub registers: [u64; 5],
}

#[derive(Clone, Copy)]
pub(crate) enum MappingType {
    Direct,
    Colour,
    Stride,
    Transpose,
}

#[derive(Clone, Copy)]
pub(crate) enum Format {
    Plain,
    Checked,
}

// Where a cache stands, by the window.
#[derive(Clone, Copy)]
pub(crate) enum CachePlace {
    Absent,
    Under,
    Over,
}

#[derive(Clone, Copy)]
pub(crate) struct Choices {
    pub mapping: MappingType,
    pub format: Format,
    pub cache: CachePlace,
}

impl CardSetup {
    // What the numbers choose, or the first that chooses nothing.
    pub(crate) fn choices(&self) -> Result<Choices, CardRefusal>
        ensures { result ≡ choices self.now.mapping self.now.format self.now.cache }
    {
        Ok(Choices {
            mapping: mapping_type(self.mapping).ok_or(CardRefusal::choice(UNKNOWN_MAPPING))?,
            format: line_format(self.format).ok_or(CardRefusal::choice(UNKNOWN_FORMAT))?,
            cache: cache_place(self.cache).ok_or(CardRefusal::choice(UNKNOWN_CACHE))?,
        })
    }
}

fn mapping_type(number: u64) -> Option<MappingType>
    ensures { result ≡ mapping_type number }
{
    match number {
        1 => Some(MappingType::Direct),
        2 => Some(MappingType::Colour),
        3 => Some(MappingType::Stride),
        4 => Some(MappingType::Transpose),
        _ => None,
    }
}

fn line_format(number: u64) -> Option<Format>
    ensures { result ≡ line_format number }
{
    match number {
        1 => Some(Format::Plain),
        2 => Some(Format::Checked),
        _ => None,
    }
}

fn cache_place(number: u64) -> Option<CachePlace>
    ensures { result ≡ cache_place number }
{
    match number {
        0 => Some(CachePlace::Absent),
        1 => Some(CachePlace::Under),
        2 => Some(CachePlace::Over),
        _ => None,
    }
}
