// All the lines that a cache holds.
ghost use Rattle.std.specs.Prelude.{◌≡◌, ◌+◌, ◌%◌, ◌≤◌, length, is_some};
ghost use Rattle.std.specs.Option.{option_map};
ghost use Rattle.cache_lines.specs.Lines.{lines_in, sets_of, no_lines, held_line, copied_from};
ghost use Rattle.cache_lines.specs.Sets.{line_kept, line_dropped, line_hit};

use crate::line::CacheLine;
use crate::ways::CacheSet;

// The number of sets.
const SETS: u64 = 8;

// Line L stands in set L mod 8. It is private how: a caller knows which lines are held, and in which order they were kept.
#[derive(Drop)]
pub struct CacheSets {
    sets: [CacheSet; 8],
}

impl CacheSets {
    // Nothing is held.
    pub fn new() -> CacheSets
        ensures { sets_of result ≡ no_lines }
    {
        let none = CacheSet {
            newer: None,
            older: None,
        };
        CacheSets { sets: [none; 8] }
    }

    // Holds the line. Of a full set the one that was kept longest leaves.
    pub fn keep(&mut self, line: CacheLine)
        ensures { sets_of self.new ≡ line_kept line (sets_of self.old) }
    {
        keep_in(&mut self.sets, line);
    }

    // Drops the line of this number, if it is held.
    pub fn drop_line(&mut self, number: u64)
        ensures { sets_of self.new ≡ line_dropped number (sets_of self.old) }
    {
        drop_in(&mut self.sets, number);
    }

    pub fn holds(&self, number: u64) -> bool
        ensures { result ≡ is_some (held_line number (sets_of self.now)) }
    {
        self.sets[set_number(number)].holds(number)
    }

    // Copies from a held line from the byte `at` on, and says whether that was the first hit of a prefetched one. Nothing where the line is
    // not held.
    pub fn hit(&mut self, number: u64, at: usize, buffer: &mut [u8]) -> Option<bool>
        requires { at + length buffer.old ≤ 128 }
        ensures first { result ≡ option_map (λ x. x.prefetched) (held_line number (sets_of self.old)) }
        ensures buffer { buffer.new ≡ copied_from (held_line number (sets_of self.old)) at buffer.old }
        ensures sets { sets_of self.new ≡ line_hit number (sets_of self.old) }
    {
        hit_in(&mut self.sets, number, at, buffer)
    }
}

// The set of a line.
fn set_number(number: u64) -> usize
    ensures { result ≡ number % 8 }
{
    (number % SETS) as usize
}

// What is done to one set goes by a slice of all: an array's length is known where it is lent as a slice.
#[tactic(auto, using(crate::proofs::Changes::set_kept))]
fn keep_in(sets: &mut [CacheSet], line: CacheLine)
    requires { length sets.old ≡ 8 }
    ensures { lines_in sets.new ≡ line_kept line (lines_in sets.old) }
{
    sets[set_number(line.number)].keep(line);
}

#[tactic(auto, using(crate::proofs::Changes::set_dropped))]
fn drop_in(sets: &mut [CacheSet], number: u64)
    requires { length sets.old ≡ 8 }
    ensures { lines_in sets.new ≡ line_dropped number (lines_in sets.old) }
{
    sets[set_number(number)].drop_line(number);
}

#[tactic(auto, using(crate::proofs::Changes::set_hit))]
fn hit_in(sets: &mut [CacheSet], number: u64, at: usize, buffer: &mut [u8]) -> Option<bool>
    requires long { length sets.old ≡ 8 }
    requires part { at + length buffer.old ≤ 128 }
    ensures first { result ≡ option_map (λ x. x.prefetched) (held_line number (lines_in sets.old)) }
    ensures buffer { buffer.new ≡ copied_from (held_line number (lines_in sets.old)) at buffer.old }
    ensures sets { lines_in sets.new ≡ line_hit number (lines_in sets.old) }
{
    sets[set_number(number)].hit(number, at, buffer)
}
