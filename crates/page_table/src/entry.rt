// An entry of the page table: four bytes, most significant first. docs/windows.md, "The page table", has its bits.
ghost use Rattle.std.specs.Prelude.{◌≡◌, ◌<◌, eqb};
ghost use Rattle.std.specs.Int.{bit_at};
ghost use Rattle.page_table.specs.Entry.{entry_of, live_frame};

use memory::Cause;

#[derive(Clone, Copy, PartialEq, Eq, Debug)]
pub struct Entry {
    pub valid: bool,
    // a byte of the page was read or written
    pub referenced: bool,
    // a byte of the page was written
    pub modified: bool,
    // the page is not in memory
    pub out: bool,
    // the page of the memory below where the bytes stand
    pub frame: u32,
}

impl Entry {
    // The entry that these bytes say.
    pub fn decode(bytes: &[u8; 4]) -> Entry
        ensures { result ≡ entry_of bytes.now }
    {
        let [top, second, third, last] = *bytes;
        Entry {
            valid: is_set(top, 7),
            referenced: is_set(top, 6),
            modified: is_set(top, 5),
            out: is_set(top, 4),
            frame: u32::from_be_bytes([top % 16, second, third, last]),
        }
    }

    // The frame of a live entry, or why no byte of the page can be reached.
    pub fn live_frame(self) -> Result<u32, Cause>
        ensures { result ≡ live_frame self }
    {
        if !self.valid {
            return Err(Cause::NoPage);
        }
        if self.out {
            return Err(Cause::PageOut);
        }
        Ok(self.frame)
    }
}

fn is_set(byte: u8, bit: u32) -> bool
    requires { bit < 8 }
    ensures { result ≡ eqb (bit_at byte bit) 1 }
{
    byte >> bit & 1 == 1
}
