// What a cache counts, and what it reports.
ghost use Rattle.std.specs.Prelude.{◌≡◌, ◌^◌, ◌≤◌};
ghost use Rattle.cache.specs.Counts.{no_counts, counted, Steady, share, reported};

// The most reads that are counted: 2^48.
const MOST_READS: u64 = 281_474_976_710_656;

#[derive(Clone, Copy, Drop)]
pub(crate) struct CacheCounts {
    // past causes 1 and 2, refused ones among them
    reads: u64,
    hits: u64,
    // lines that were kept before they were asked for
    prefetches: u64,
}

// The counts, and how many of a thousand reads were hits.
#[derive(Clone, Copy, PartialEq, Eq, Debug)]
pub struct CacheReport {
    pub reads: u64,
    pub hits: u64,
    pub prefetches: u64,
    pub share: u64,
}

impl CacheCounts {
    pub(crate) fn new() -> CacheCounts
        ensures { result ≡ no_counts }
    {
        CacheCounts {
            reads: 0,
            hits: 0,
            prefetches: 0,
        }
    }

    // One read more. The read that reaches the most counts whole, and after it nothing changes.
    pub(crate) fn count(&mut self, hit: bool, kept: bool)
        requires { Steady self.old }
        ensures counts { self.new ≡ counted hit kept self.old }
        ensures steady { Steady self.new }
    {
        if self.reads < MOST_READS {
            self.reads += 1;
            self.hits += u64::from(hit);
            self.prefetches += u64::from(kept);
        }
    }

    pub(crate) fn report(&self) -> CacheReport
        requires { Steady self.now }
        ensures { result ≡ reported self.now }
    {
        CacheReport {
            reads: self.reads,
            hits: self.hits,
            prefetches: self.prefetches,
            share: share(self.hits, self.reads),
        }
    }
}

// How many of a thousand, rounded down. 0 where there are none.
fn share(part: u64, whole: u64) -> u64
    requires { part ≤ 2 ^ 48 }
    ensures { result ≡ share part whole }
{
    (part * 1000).checked_div(whole).unwrap_or(0)
}
