// The TLB: the translations that a window holds, and its counts.
ghost use Rattle.std.specs.Prelude.{◌≡◌, ℕ, None};
ghost use Rattle.page_table.specs.Tlb.{empty_tlb, held_entry, kept, counted, counted_hits, Steady};

use crate::entry::Entry;

// Places of the TLB: page k stands only in place k mod 32.
const PLACES: usize = 32;

// The lookup that reaches this number is the last that counts: 2^48.
const MOST_LOOKUPS: u64 = 281_474_976_710_656;

// A page and its entry.
#[derive(Clone, Copy)]
struct Translation {
    page: u32,
    entry: Entry,
}

// Plain numbers, as all that a layer holds by value.
#[derive(Clone, Copy)]
pub struct Tlb {
    places: [Option<Translation>; PLACES],
    // grains that were looked for, whose entry was held or not
    lookups: u64,
    // lookups of a live entry that was not held, and was from then on
    fills: u64,
}

impl Tlb {
    // Nothing is held, and every count is 0.
    #[tactic(auto, using(crate::proofs::Tlbs::holds_nothing))]
    pub fn new() -> Tlb
        ensures value { result ≡ empty_tlb }
        ensures nothing { (page : ℕ) → held_entry result page ≡ None }
        ensures steady { Steady result }
    {
        Tlb {
            places: [None; PLACES],
            lookups: 0,
            fills: 0,
        }
    }

    // The entry that is held for a page.
    pub fn get(&self, page: u32) -> Option<Entry>
        ensures { result ≡ held_entry self.now page }
    {
        let place = self.places[page as usize % PLACES];
        match place {
            Some(held) if held.page == page => Some(held.entry),
            _ => None,
        }
    }

    // Holds an entry for a page, in place of what stood in its place.
    pub fn keep(&mut self, page: u32, entry: Entry)
        ensures { self.new ≡ kept self.old page entry }
    {
        self.places[page as usize % PLACES] = Some(Translation { page, entry });
    }

    // One lookup more, which was a fill or not.
    pub fn count(&mut self, filled: bool)
        requires { Steady self.old }
        ensures value { self.new ≡ counted self.old filled }
        ensures steady { Steady self.new }
    {
        if self.lookups < MOST_LOOKUPS {
            self.lookups += 1;
            self.fills += u64::from(filled);
        }
    }

    // So many lookups more that found their entry held.
    #[tactic(auto, using(crate::proofs::Tlbs::hits_are, crate::proofs::Tlbs::steady_hits))]
    pub fn count_hits(&mut self, hits: u32)
        requires { Steady self.old }
        ensures value { self.new ≡ counted_hits self.old hits }
        ensures steady { Steady self.new }
    {
        self.lookups = (self.lookups + u64::from(hits)).min(MOST_LOOKUPS);
    }

    pub fn lookups(&self) -> u64
        ensures { result ≡ self.now.lookups }
    {
        self.lookups
    }

    pub fn fills(&self) -> u64
        ensures { result ≡ self.now.fills }
    {
        self.fills
    }
}
