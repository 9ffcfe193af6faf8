// A cache as a layer over a memory: made, asked, reported on, closed.
ghost use Rattle.std.specs.Prelude.{◌≡◌, cond};
ghost use Rattle.memory.specs.Reach.{Reached, Step};
ghost use Rattle.memory.specs.Up.{cells_up, cells_up_formed};
ghost use Rattle.cache_lines.specs.Lines.{sets_of};
ghost use Rattle.cache_lines.specs.Sets.{line_dropped};
ghost use Rattle.cache.specs.Counts.{Steady, reported};
ghost use Rattle.cache.specs.Rules.{empty_cache};
ghost use Rattle.cache.specs.State.{Standing, Called};

use crate::counts::{CacheCounts, CacheReport};
use crate::fetch::{follow_hit, miss};
use cache_lines::CacheSets;
use memory::{Fault, Memory, check_run, from_below};
use units::LINE;

// It has no ghost field, so that caches stack over borrowed bytes.
#[derive(Drop)]
pub struct Cache<M: Memory> {
    below: M,
    lines: CacheSets,
    counts: CacheCounts,
}

impl<M: Memory> Cache<M> {
    // Nothing is held, and nothing counted.
    #[tactic(auto, using(crate::proofs::Copies::mirrored_none))]
    pub fn new(below: M) -> Cache<M>
        requires { M.Memory.coherent below }
        ensures below { result.below ≡ below }
        ensures state { record { sets = sets_of result.lines; counts = result.counts } ≡ empty_cache }
        ensures standing { Standing (M.Memory.coherent result.below) (M.Memory.meaning result.below) (sets_of result.lines) result.counts }
    {
        Cache {
            below,
            lines: CacheSets::new(),
            counts: CacheCounts::new(),
        }
    }

    // Gives back the memory below.
    pub fn close(self) -> M
        ensures { result ≡ self.below }
    {
        let Cache { below, .. } = self;
        below
    }

    pub fn report(&self) -> CacheReport
        requires { Steady self.now.counts }
        ensures { result ≡ reported self.now.counts }
    {
        self.counts.report()
    }

    // The line of an accepted write is dropped, since what is held of it is no longer what stands below. A write counts nothing.
    fn settle_write(&mut self, number: u64, accepted: bool)
        ensures lines { sets_of self.new.lines ≡ cond accepted (line_dropped number (sets_of self.old.lines)) (sets_of self.old.lines) }
        ensures counts { self.new.counts ≡ self.old.counts }
        ensures below { self.new.below ≡ self.old.below }
    {
        if accepted {
            self.lines.drop_line(number);
        }
    }
}

impl<M: Memory> Memory for Cache<M> {
    ghost meaning = { λ c. cells_up (M.Memory.meaning c.below) };

    ghost coherent = { λ c. Standing (M.Memory.coherent c.below) (M.Memory.meaning c.below) (sets_of c.lines) c.counts };

    ghost formed = { λ c s. cells_up_formed (M.Memory.meaning c.below) (M.Memory.formed c.below s.below) };

    ghost step = { λ before call after. Called (Reached (Step M.Memory.meaning M.Memory.coherent M.Memory.step) before.below after.below) (after.below ≡ before.below) (M.Memory.meaning before.below) (M.Memory.meaning after.below) (record { sets = sets_of before.lines; counts = before.counts }) (record { sets = sets_of after.lines; counts = after.counts }) call };

    fn size(&self) -> u64 {
        self.below.size()
    }

    fn read(&mut self, a: u64, buffer: &mut [u8]) -> Result<(), Fault> {
        check_run(self.below.size(), a, buffer.len())?;
        let number = a / LINE;
        if let Some(first) = self.lines.hit(number, (a % LINE) as usize, buffer) {
            let kept = follow_hit(&mut self.below, &mut self.lines, number + 1, first);
            self.counts.count(true, kept);
            return Ok(());
        }
        let (answer, kept) = miss(&mut self.below, &mut self.lines, a, buffer);
        self.counts.count(false, kept);
        answer
    }

    fn write(&mut self, a: u64, bytes: &[u8]) -> Result<(), Fault> {
        check_run(self.below.size(), a, bytes.len())?;
        let answer = from_below(self.below.write(a, bytes));
        self.settle_write(a / LINE, answer.is_ok());
        answer
    }
}
