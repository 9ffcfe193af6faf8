// What a window reports.

// Five numbers. docs/windows.md, "Reports", says what each counts.
#[derive(Clone, Copy, PartialEq, Eq, Debug)]
pub struct WindowReport {
    // of the mapping
    pub type_number: u8,
    // why the window is shut, 0 if it is open
    pub reason: u8,
    // the number of the entry that decided the reason, 0 if none did
    pub entry: u32,
    pub lookups: u64,
    pub fills: u64,
}
