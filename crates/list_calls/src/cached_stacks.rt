// Stacks of one to four windows and caches over both bottoms, in many orders.
use crate::cached::{cache_over, check_cache, check_runs};
use crate::layer::live;
use crate::placing::Placing;
use crate::stack::{CHECKED_BYTES, Copied, PLAIN_BYTES, bottom, check_top, window_over};
use cache::Cache;
use checked::{CheckByte, Checked};
use colour::Colour;
use direct::Direct;
use mapping::Mapping;
use memory::Memory;
use plain::{CellsAlone, Plain};
use std::alloc::Global;
use std::marker::PhantomData;
use std::test::Fail;
use stride::Stride;
use transpose::Transpose;
use window::Window;

// The layers over a memory, the lowest one first.
trait Layers {
    // Makes the layers over a memory with so many windows in it, and plays lists on the uppermost one.
    fn check<M: Memory + Drop>(heap: Global, below: Copied<M>, windows: usize) -> Result<(), Fail>
        requires { M.Memory.coherent below.memory };
}

// A cache, and nothing over it.
struct TopCache;

// A window, and nothing over it.
struct TopWindow<P>(PhantomData<P>);

// A cache, and these layers over it.
struct CacheUnder<L>(PhantomData<L>);

// A window, and these layers over it.
struct WindowUnder<P, L>(PhantomData<(P, L)>);

impl Layers for TopCache {
    fn check<M: Memory + Drop>(
        heap: Global,
        below: Copied<M>,
        _windows: usize,
    ) -> Result<(), Fail> {
        check_cache(heap, below)
    }
}

impl<P: Mapping + Placing> Layers for TopWindow<P> {
    fn check<M: Memory + Drop>(heap: Global, below: Copied<M>, windows: usize) -> Result<(), Fail> {
        check_top::<P, M>(heap, below, live::<P>(windows))
    }
}

impl<L: Layers> Layers for CacheUnder<L> {
    fn check<M: Memory + Drop>(heap: Global, below: Copied<M>, windows: usize) -> Result<(), Fail> {
        L::check::<Cache<M>>(heap, cache_over(heap, below)?, windows)
    }
}

impl<P: Mapping + Placing, L: Layers> Layers for WindowUnder<P, L> {
    fn check<M: Memory + Drop>(heap: Global, below: Copied<M>, windows: usize) -> Result<(), Fail> {
        let window = window_over::<P, M>(heap, below, live::<P>(windows))?;
        L::check::<Window<P, M>>(heap, window, windows.saturating_add(1))
    }
}

// The layers over plain and over checked memory.
fn check_both<L: Layers>(heap: Global) -> Result<(), Fail> {
    let mut bytes = vec![in heap; 0u8; PLAIN_BYTES]?;
    L::check::<Plain>(heap, bottom::<CellsAlone>(heap, &mut bytes)?, 0)?;
    let mut bytes = vec![in heap; 0u8; CHECKED_BYTES]?;
    L::check::<Checked>(heap, bottom::<CheckByte>(heap, &mut bytes)?, 0)
}

type CacheWindow<P> = CacheUnder<TopWindow<P>>;

type WindowCache<P> = WindowUnder<P, TopCache>;

type CacheCacheWindow<P> = CacheUnder<CacheWindow<P>>;

type CacheWindowCache<P> = CacheUnder<WindowCache<P>>;

type WindowCacheWindow<P, Q> = WindowUnder<P, CacheWindow<Q>>;

type WindowWindowCache<P, Q> = WindowUnder<P, WindowCache<Q>>;

#[test]
fn caches_alone(rt: HostRuntime) -> Result<(), Fail> {
    let heap = rt.alloc();
    check_both::<TopCache>(heap)?;
    check_both::<CacheUnder<TopCache>>(heap)?;
    check_both::<CacheUnder<CacheUnder<CacheUnder<TopCache>>>>(heap)
}

#[test]
fn window_over_cache(rt: HostRuntime) -> Result<(), Fail> {
    let heap = rt.alloc();
    check_both::<CacheWindow<Direct>>(heap)?;
    check_both::<CacheWindow<Transpose>>(heap)
}

#[test]
fn cache_over_window(rt: HostRuntime) -> Result<(), Fail> {
    let heap = rt.alloc();
    check_both::<WindowCache<Stride>>(heap)?;
    check_both::<WindowCache<Colour>>(heap)
}

#[test]
fn three_layers(rt: HostRuntime) -> Result<(), Fail> {
    let heap = rt.alloc();
    check_both::<CacheCacheWindow<Stride>>(heap)?;
    check_both::<CacheWindowCache<Colour>>(heap)?;
    check_both::<WindowCacheWindow<Transpose, Stride>>(heap)?;
    check_both::<WindowWindowCache<Direct, Transpose>>(heap)?;
    check_both::<CacheUnder<WindowUnder<Stride, TopWindow<Direct>>>>(heap)
}

#[test]
fn four_layers(rt: HostRuntime) -> Result<(), Fail> {
    let heap = rt.alloc();
    check_both::<WindowUnder<Direct, CacheCacheWindow<Stride>>>(heap)?;
    check_both::<CacheUnder<WindowCacheWindow<Colour, Transpose>>>(heap)?;
    check_both::<WindowUnder<Stride, CacheWindowCache<Direct>>>(heap)?;
    check_both::<CacheUnder<WindowWindowCache<Transpose, Colour>>>(heap)?;
    check_both::<WindowUnder<Direct, WindowWindowCache<Colour, Stride>>>(heap)?;
    check_both::<WindowUnder<Direct, WindowCacheWindow<Transpose, Stride>>>(heap)
}

// From the registers to the closing.
fn check_both_runs<P: Mapping + Placing>(heap: Global) -> Result<(), Fail> {
    let mut bytes = vec![in heap; 0u8; PLAIN_BYTES]?;
    check_runs::<P, Plain>(heap, bottom::<CellsAlone>(heap, &mut bytes)?, live::<P>(0))?;
    let mut bytes = vec![in heap; 0u8; CHECKED_BYTES]?;
    check_runs::<P, Checked>(heap, bottom::<CheckByte>(heap, &mut bytes)?, live::<P>(0))
}

#[test]
fn runs(rt: HostRuntime) -> Result<(), Fail> {
    let heap = rt.alloc();
    check_both_runs::<Direct>(heap)?;
    check_both_runs::<Colour>(heap)?;
    check_both_runs::<Stride>(heap)?;
    check_both_runs::<Transpose>(heap)
}
