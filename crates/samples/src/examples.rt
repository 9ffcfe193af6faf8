// Worked examples: of runs, computed by the library, and of runs, mappings, page table entries and a cache, proved from the definitions.
ghost use Rattle.std.specs.Prelude.{◌≡◌};
ghost use Rattle.samples.specs.Caches.{CacheExamples};
ghost use Rattle.samples.specs.Entries.{EntryExamples};
ghost use Rattle.samples.specs.Mappings.{MappingExamples};
ghost use Rattle.samples.specs.Runs.{run_answers, RunExamples};

use memory::{Fault, check_run};

// What the test of a run answers, in a memory of 1,024 cells.
#[derive(Clone, Copy)]
pub struct RunAnswers {
    // 8 bytes at 120
    pub eight: Result<(), Fault>,
    // 9 bytes at 120
    pub nine: Result<(), Fault>,
    // no byte at the size
    pub none: Result<(), Fault>,
    // one byte at the size
    pub one: Result<(), Fault>,
}

// The worked examples of runs, computed; that they hold of every memory; and the worked examples of mappings, of page table entries
// and of a cache.
pub fn worked_examples() -> RunAnswers
    ensures computed { result ≡ run_answers }
    ensures runs { RunExamples }
    ensures mappings { MappingExamples }
    ensures entries { EntryExamples }
    ensures caches { CacheExamples }
{
    RunAnswers {
        eight: check_run(1024, 120, 8),
        nine: check_run(1024, 120, 9),
        none: check_run(1024, 1024, 0),
        one: check_run(1024, 1024, 1),
    }
}
