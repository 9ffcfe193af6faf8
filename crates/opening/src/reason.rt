// Why an opening is refused.
ghost use Rattle.std.specs.Prelude.{◌≡◌, Some};
ghost use Rattle.opening.specs.Reason.{reason_number, reason_text, refusal_text};

use std::error::Error;
use std::fmt;

// docs/windows.md, "Opening", has the numbers and the order.
#[derive(Clone, Copy, PartialEq, Eq, Debug)]
pub enum Reason {
    // the board has fewer bytes than the memory has whole pages
    ShortBoard = 21,
    // a page of the table is no whole page of the memory
    TableOutside = 22,
    // the frame is no whole page of the memory
    FrameOutside = 23,
    // the frame is a page of the table
    FrameInTable = 24,
    // an earlier live entry has the frame
    FrameTaken = 25,
}

impl Reason {
    pub fn number(self) -> u8
        ensures { result ≡ reason_number self }
    {
        self as u8
    }
}

// Why a window is shut: the reason, and the number of the entry that decided, 0 where none did.
#[derive(Clone, Copy, PartialEq, Eq, Debug)]
pub struct OpeningRefusal {
    pub reason: Reason,
    pub entry: u32,
}

impl Error for OpeningRefusal {}

impl fmt::Display for Reason {
    ghost output = { λ r. Some (reason_text r) };

    fn fmt<W: fmt::Write>(&self, f: &mut fmt::Formatter<W>) -> fmt::Result {
        let why = match self {
            Reason::ShortBoard => "the board has fewer bytes than the memory has whole pages",
            Reason::TableOutside => "a page of the table is no whole page of the memory",
            Reason::FrameOutside => "the frame is no whole page of the memory",
            Reason::FrameInTable => "the frame is a page of the table",
            Reason::FrameTaken => "an earlier live entry has the frame",
        };
        write!(f, "{why} (reason {})", self.number())
    }
}

impl fmt::Display for OpeningRefusal {
    ghost output = { λ r. Some (refusal_text r) };

    fn fmt<W: fmt::Write>(&self, f: &mut fmt::Formatter<W>) -> fmt::Result {
        write!(f, "{}, entry {}", self.reason, self.entry)
    }
}
