// The sizes that memories and images are made of.

// Bytes in a line.
pub const LINE: u64 = 128;

// Bytes that a line and its check byte take in checked memory.
pub const CHECKED_LINE: usize = 129;

// Bytes in a page.
pub const PAGE: u64 = 4096;

// Bytes of a word, which a price is.
pub const WORD: usize = 4;
