// What a call answers, in plain numbers. docs/linking.md, "Answers", says what each is.
ghost use Rattle.std.specs.Prelude.{◌≡◌};
ghost use Rattle.card_c.specs.Answer.{unknown_choice, set_up_refused, opening_refused, fault_numbers, cache_numbers, refused, span_answer, cached_answer};

use cache::CacheReport;
use card::SetUpRefusal;
use memory::Fault;
use opening::OpeningRefusal;
use page_table::Tlb;
use span::Spanned;
use window::WindowReport;

// Why no window was opened, all 0 if one was.
#[repr(C)]
#[derive(Clone, Copy)]
pub struct CardRefusal {
    pub reason: u64,
    // the register, for the reasons 11 and 12; the entry of the page table, for 21 to 25; else 0
    pub number: u64,
}

// Why the call ended before its last byte, all 0 if it did not.
#[repr(C)]
#[derive(Clone, Copy)]
pub struct CardFault {
    pub cause: u64,
    pub depth: u64,
    pub place: u64,
}

#[repr(C)]
#[derive(Clone, Copy)]
pub struct CardWindowReport {
    pub lookups: u64,
    pub fills: u64,
}

#[repr(C)]
#[derive(Clone, Copy)]
pub struct CardCacheReport {
    pub reads: u64,
    pub hits: u64,
    pub prefetches: u64,
    pub share: u64,
}

#[repr(C)]
#[derive(Clone, Copy)]
pub struct CardAnswer {
    pub refusal: CardRefusal,
    pub fault: CardFault,
    // how many bytes were read or written
    pub done: u64,
    // what the window counted
    pub window: CardWindowReport,
    // what the cache counted, all 0 if there is none
    pub cache: CardCacheReport,
}

impl CardRefusal {
    pub(crate) fn none() -> CardRefusal
        ensures { result ≡ record { reason = 0; number = 0 } }
    {
        CardRefusal {
            reason: 0,
            number: 0,
        }
    }

    pub(crate) fn choice(reason: u64) -> CardRefusal
        ensures { result ≡ unknown_choice reason }
    {
        CardRefusal { reason, number: 0 }
    }

    pub(crate) fn of_set_up(refusal: SetUpRefusal) -> CardRefusal
        ensures { result ≡ set_up_refused refusal }
    {
        match refusal {
            SetUpRefusal::Register(write, refusal) => CardRefusal {
                reason: u64::from(refusal.number()),
                number: write.number,
            },
            SetUpRefusal::Arming(refusal) => CardRefusal {
                reason: u64::from(refusal.number()),
                number: 0,
            },
        }
    }

    pub(crate) fn of_opening(refusal: OpeningRefusal) -> CardRefusal
        ensures { result ≡ opening_refused refusal }
    {
        CardRefusal {
            reason: u64::from(refusal.reason.number()),
            number: u64::from(refusal.entry),
        }
    }
}

impl CardFault {
    fn of_answer(answer: Result<(), Fault>) -> CardFault
        ensures { result ≡ fault_numbers answer }
    {
        match answer {
            Ok(()) => CardFault {
                cause: 0,
                depth: 0,
                place: 0,
            },
            Err(fault) => CardFault {
                cause: u64::from(fault.cause.number()),
                depth: u64::from(fault.depth),
                place: fault.place,
            },
        }
    }
}

impl CardCacheReport {
    fn of_report(report: CacheReport) -> CardCacheReport
        ensures { result ≡ cache_numbers report }
    {
        CardCacheReport {
            reads: report.reads,
            hits: report.hits,
            prefetches: report.prefetches,
            share: report.share,
        }
    }

    fn none() -> CardCacheReport
        ensures { result ≡ record { reads = 0; hits = 0; prefetches = 0; share = 0 } }
    {
        CardCacheReport {
            reads: 0,
            hits: 0,
            prefetches: 0,
            share: 0,
        }
    }
}

impl CardAnswer {
    // Where no window was opened.
    pub(crate) fn refused(refusal: CardRefusal) -> CardAnswer
        ensures { result ≡ refused refusal }
    {
        CardAnswer {
            refusal,
            fault: CardFault::of_answer(Ok(())),
            done: 0,
            window: CardWindowReport {
                lookups: 0,
                fills: 0,
            },
            cache: CardCacheReport::none(),
        }
    }

    // Where one was, and a span of it was asked for.
    pub(crate) fn of_span(spanned: Spanned, tlb: &Tlb) -> CardAnswer
        ensures { result ≡ span_answer spanned.answer spanned.done tlb.now }
    {
        CardAnswer {
            refusal: CardRefusal::none(),
            fault: CardFault::of_answer(spanned.answer),
            done: spanned.done as u64,
            window: CardWindowReport {
                lookups: tlb.lookups(),
                fills: tlb.fills(),
            },
            cache: CardCacheReport::none(),
        }
    }
    // The same call, with what a cache counted below the window.
    pub(crate) fn with_cache(self, report: CacheReport) -> CardAnswer
        ensures { result ≡ record self { cache = cache_numbers report } }
    {
        CardAnswer {
            cache: CardCacheReport::of_report(report),
            ..self
        }
    }

    // Where a span of a cache over a window was asked for.
    pub(crate) fn of_cached(
        spanned: Spanned,
        cache: CacheReport,
        window: WindowReport,
    ) -> CardAnswer
        ensures { result ≡ cached_answer spanned.answer spanned.done cache (record { lookups = window.lookups; fills = window.fills }) }
    {
        CardAnswer {
            refusal: CardRefusal::none(),
            fault: CardFault::of_answer(spanned.answer),
            done: spanned.done as u64,
            window: CardWindowReport {
                lookups: window.lookups,
                fills: window.fills,
            },
            cache: CardCacheReport::of_report(cache),
        }
    }
}
