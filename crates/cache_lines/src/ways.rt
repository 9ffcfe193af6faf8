// The two ways of a set.
ghost use Rattle.std.specs.Prelude.{◌≡◌, ◌+◌, ◌≤◌, ◌∷◌, length, take, is_some};
ghost use Rattle.std.specs.Option.{option_map};
ghost use Rattle.cache_lines.specs.Lines.{is_line, dropped_in, found_in, copied_from, hit_in, lines_of, find, without, after_hit};

use crate::line::CacheLine;

// The line that was kept last, and the one before. With one line alone either way may hold it.
#[derive(Clone, Copy, Drop)]
pub(crate) struct CacheSet {
    pub(crate) newer: Option<CacheLine>,
    pub(crate) older: Option<CacheLine>,
}

impl CacheSet {
    // A line that is kept moves the newer one to the older way, where that pushes out what it finds.
    pub(crate) fn keep(&mut self, line: CacheLine)
        ensures { lines_of self.new ≡ take 2 (line ∷ lines_of self.old) }
    {
        if self.newer.is_some() {
            let newer = self.newer;
            self.older = newer;
        }
        self.newer = Some(line);
    }

    #[tactic(auto, using(crate::proofs::Changes::drop_pair))]
    pub(crate) fn drop_line(&mut self, number: u64)
        ensures { lines_of self.new ≡ without number (lines_of self.old) }
    {
        drop_way(&mut self.newer, number);
        drop_way(&mut self.older, number);
    }

    pub(crate) fn holds(&self, number: u64) -> bool
        ensures { result ≡ is_some (find number (lines_of self.now)) }
    {
        is_line(&self.newer, number) || is_line(&self.older, number)
    }

    // Copies from a held line from the byte `at` on, and says whether that was the first hit of a prefetched one.
    pub(crate) fn hit(&mut self, number: u64, at: usize, buffer: &mut [u8]) -> Option<bool>
        requires { at + length buffer.old ≤ 128 }
        ensures first { result ≡ option_map (λ x. x.prefetched) (find number (lines_of self.old)) }
        ensures buffer { buffer.new ≡ copied_from (find number (lines_of self.old)) at buffer.old }
        ensures lines { lines_of self.new ≡ after_hit number (lines_of self.old) }
    {
        let first = hit_way(&mut self.newer, number, at, buffer);
        if first.is_some() {
            return first;
        }
        hit_way(&mut self.older, number, at, buffer)
    }
}

fn is_line(way: &Option<CacheLine>, number: u64) -> bool
    ensures { result ≡ is_line way.now number }
{
    match way {
        Some(line) => line.number == number,
        None => false,
    }
}

fn drop_way(way: &mut Option<CacheLine>, number: u64)
    ensures { way.new ≡ dropped_in way.old number }
{
    if is_line(way, number) {
        *way = None;
    }
}

fn hit_way(way: &mut Option<CacheLine>, number: u64, at: usize, buffer: &mut [u8]) -> Option<bool>
    requires { at + length buffer.old ≤ 128 }
    ensures first { result ≡ option_map (λ x. x.prefetched) (found_in way.old number) }
    ensures buffer { buffer.new ≡ copied_from (found_in way.old number) at buffer.old }
    ensures way { way.new ≡ hit_in way.old number }
{
    match way {
        Some(line) => {
            if line.number != number {
                return None;
            }
            let n = buffer.len();
            buffer.copy_from_slice(&line.bytes[at..at + n]);
            let first = line.prefetched;
            line.prefetched = false;
            Some(first)
        }
        None => None,
    }
}
