// A layer of the sort that a case says, over any memory. So a stack of any layers has one type for each height, and behind a box one size.
ghost use Rattle.std.specs.Prelude.{IfOk, ⊤};
ghost use Rattle.memory.specs.Up.{cells_up_formed};
ghost use Rattle.window.specs.Laws.{shown_formed};
ghost use Rattle.conformance.specs.AnyLayer.{cells_by, Holds, formed_by};

use crate::answers::{write_cache_report, write_window_report};
use cache::Cache;
use colour::Colour;
use direct::Direct;
use mapping::Mapping;
use memory::{Fault, Memory};
use std::alloc::AllocError;
use stride::Stride;
use transpose::Transpose;
use window::Window;

#[derive(Drop)]
pub(crate) enum AnyLayer<M: Memory> {
    Cached(Box<Cache<M>>),
    Direct(Box<Window<Direct, M>>),
    Colour(Box<Window<Colour, M>>),
    Stride(Box<Window<Stride, M>>),
    Transpose(Box<Window<Transpose, M>>),
}

impl<M: Memory + Drop> AnyLayer<M> {
    // Reports on the layer, and gives back the memory below.
    pub(crate) fn close(self, text: &mut String) -> Result<M, AllocError>
        requires { ⟦<AnyLayer<M> as Memory>⟧.coherent self }
        ensures { IfOk result M.Memory.coherent }
    {
        match self {
            AnyLayer::Cached(cache) => {
                write_cache_report(text, &cache.report())?;
                Ok(Box::into_inner(cache).close())
            }
            AnyLayer::Direct(window) => closed(Box::into_inner(window), text),
            AnyLayer::Colour(window) => closed(Box::into_inner(window), text),
            AnyLayer::Stride(window) => closed(Box::into_inner(window), text),
            AnyLayer::Transpose(window) => closed(Box::into_inner(window), text),
        }
    }
}

fn closed<P: Mapping, M: Memory + Drop>(
    window: Window<P, M>,
    text: &mut String,
) -> Result<M, AllocError>
    requires { ⟦<Window<P, M> as Memory>⟧.coherent window }
    ensures { IfOk result M.Memory.coherent }
{
    write_window_report(text, &window.report())?;
    Ok(window.close())
}

impl<M: Memory> Memory for AnyLayer<M> {
    ghost meaning = { cells_by ⟦<Cache<M> as Memory>⟧.meaning ⟦<Window<Direct, M> as Memory>⟧.meaning ⟦<Window<Colour, M> as Memory>⟧.meaning ⟦<Window<Stride, M> as Memory>⟧.meaning ⟦<Window<Transpose, M> as Memory>⟧.meaning };

    ghost coherent = { Holds ⟦<Cache<M> as Memory>⟧.coherent ⟦<Window<Direct, M> as Memory>⟧.coherent ⟦<Window<Colour, M> as Memory>⟧.coherent ⟦<Window<Stride, M> as Memory>⟧.coherent ⟦<Window<Transpose, M> as Memory>⟧.coherent };

    ghost formed = { formed_by (λ c s. cells_up_formed _ (M.Memory.formed _ s.below)) (λ w s. shown_formed _ _ _ _ s.ready) (λ w s. shown_formed _ _ _ _ s.ready) (λ w s. shown_formed _ _ _ _ s.ready) (λ w s. shown_formed _ _ _ _ s.ready) };

    // Nobody asks here what a call does beyond the cells.
    ghost step = { λ before call after. ⊤ };

    fn size(&self) -> u64 {
        match self {
            AnyLayer::Cached(cache) => cache.size(),
            AnyLayer::Direct(window) => window.size(),
            AnyLayer::Colour(window) => window.size(),
            AnyLayer::Stride(window) => window.size(),
            AnyLayer::Transpose(window) => window.size(),
        }
    }

    fn read(&mut self, a: u64, buffer: &mut [u8]) -> Result<(), Fault> {
        match self {
            AnyLayer::Cached(cache) => cache.read(a, buffer),
            AnyLayer::Direct(window) => window.read(a, buffer),
            AnyLayer::Colour(window) => window.read(a, buffer),
            AnyLayer::Stride(window) => window.read(a, buffer),
            AnyLayer::Transpose(window) => window.read(a, buffer),
        }
    }

    fn write(&mut self, a: u64, bytes: &[u8]) -> Result<(), Fault> {
        match self {
            AnyLayer::Cached(cache) => cache.write(a, bytes),
            AnyLayer::Direct(window) => window.write(a, bytes),
            AnyLayer::Colour(window) => window.write(a, bytes),
            AnyLayer::Stride(window) => window.write(a, bytes),
            AnyLayer::Transpose(window) => window.write(a, bytes),
        }
    }
}
