// A line that a cache holds.

// Its number, which is its address by 128, and a copy of its bytes.
#[derive(Clone, Copy, Drop)]
pub struct CacheLine {
    pub number: u64,
    // it came by a prefetch, and was not hit since
    pub prefetched: bool,
    pub bytes: [u8; 128],
}
