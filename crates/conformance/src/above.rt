// What stands above a memory, layer by layer, as the case says.
ghost use Rattle.std.specs.Prelude.{IfOk, MatchResult};

use crate::answers::{write_calls, write_opened, write_refused};
use crate::any_layer::AnyLayer;
use crate::case::{Layer, SetUp};
use anyhow::Context;
use cache::Cache;
use call_list::{CallRecord, play};
use card::armed_set;
use colour::Colour;
use direct::Direct;
use mapping::Mapping;
use memory::Memory;
use std::alloc::Global;
use std::slice;
use stride::Stride;
use transpose::Transpose;
use window::Window;

// What is left of a case while it is played, and the answers so far.
#[derive(Drop)]
pub(crate) struct Run<'a> {
    pub(crate) heap: Global,
    pub(crate) layers: slice::Iter<'a, Layer>,
    pub(crate) set_ups: slice::Iter<'a, SetUp>,
    pub(crate) calls: Vec<CallRecord>,
    pub(crate) text: String,
}

pub(crate) trait Above<M: Memory> {
    // Makes the layers above this memory, makes the calls on the top, and closes the layers again.
    fn play(run: &mut Run<'_>, memory: M) -> anyhow::Result<M>
        requires { M.Memory.coherent memory }
        ensures { IfOk result M.Memory.coherent };
}

// No layer: the calls are made here.
pub(crate) struct Top;

// At most so many layers. Each is a type by itself, and not one type within another: a proof about four of those would have to go
// through all that each of them takes.
pub(crate) struct One;

pub(crate) struct Two;

pub(crate) struct Three;

pub(crate) struct Four;

impl<M: Memory + Drop> Above<M> for Top {
    fn play(run: &mut Run<'_>, memory: M) -> anyhow::Result<M> {
        let mut memory = memory;
        play(&mut memory, &mut run.calls);
        write_calls(&mut run.text, &run.calls)?;
        Ok(memory)
    }
}

impl<M: Memory + Drop> Above<M> for One {
    fn play(run: &mut Run<'_>, memory: M) -> anyhow::Result<M> {
        play_next::<Top, M>(run, memory)
    }
}

impl<M: Memory + Drop> Above<M> for Two {
    fn play(run: &mut Run<'_>, memory: M) -> anyhow::Result<M> {
        play_next::<One, M>(run, memory)
    }
}

impl<M: Memory + Drop> Above<M> for Three {
    fn play(run: &mut Run<'_>, memory: M) -> anyhow::Result<M> {
        play_next::<Two, M>(run, memory)
    }
}

impl<M: Memory + Drop> Above<M> for Four {
    fn play(run: &mut Run<'_>, memory: M) -> anyhow::Result<M> {
        play_next::<Three, M>(run, memory)
    }
}

// The layer that the case has next, and what stands above it; or none.
fn play_next<A: Above<AnyLayer<M>>, M: Memory + Drop>(
    run: &mut Run<'_>,
    memory: M,
) -> anyhow::Result<M>
    requires { M.Memory.coherent memory }
    ensures { IfOk result M.Memory.coherent }
{
    match run.layers.next() {
        None => Top::play(run, memory),
        Some(layer) => match made(run, *layer, memory)? {
            Ok(layer) => {
                let layer = A::play(run, layer)?;
                Ok(layer.close(&mut run.text)?)
            }
            Err(memory) => Ok(memory),
        },
    }
}

// The layer over this memory; the memory again, where the set-up of a window is refused.
fn made<M: Memory + Drop>(
    run: &mut Run<'_>,
    layer: Layer,
    memory: M,
) -> anyhow::Result<Result<AnyLayer<M>, M>>
    requires { M.Memory.coherent memory }
    ensures { IfOk result (λ r. MatchResult r ⟦<AnyLayer<M> as Memory>⟧.coherent M.Memory.coherent) }
{
    Ok(match layer {
        Layer::Cache => {
            let cache = Box::new(run.heap, Cache::new(memory))?;
            writeln!(run.text, "cache {}", cache.size())?;
            Ok(AnyLayer::Cached(cache))
        }
        Layer::Direct => match opened::<Direct, M>(run, memory)? {
            Ok(window) => Ok(AnyLayer::Direct(window)),
            Err(memory) => Err(memory),
        },
        Layer::Colour => match opened::<Colour, M>(run, memory)? {
            Ok(window) => Ok(AnyLayer::Colour(window)),
            Err(memory) => Err(memory),
        },
        Layer::Stride => match opened::<Stride, M>(run, memory)? {
            Ok(window) => Ok(AnyLayer::Stride(window)),
            Err(memory) => Err(memory),
        },
        Layer::Transpose => match opened::<Transpose, M>(run, memory)? {
            Ok(window) => Ok(AnyLayer::Transpose(window)),
            Err(memory) => Err(memory),
        },
    })
}

fn opened<P: Mapping, M: Memory + Drop>(
    run: &mut Run<'_>,
    memory: M,
) -> anyhow::Result<Result<Box<Window<P, M>>, M>>
    requires { M.Memory.coherent memory }
    ensures { IfOk result (λ r. MatchResult r (λ b. ⟦<Window<P, M> as Memory>⟧.coherent b.value) M.Memory.coherent) }
{
    let set_up = run.set_ups.next().context("a window has no board")?;
    let mut board = vec![in run.heap; 0xFFu8; set_up.board]?;
    match armed_set::<P>(&set_up.writes) {
        Ok(set) => {
            let window = Box::new(run.heap, Window::open(set, memory, &mut board))?;
            write_opened(
                &mut run.text,
                set_up,
                &window.report(),
                window.size(),
                &board,
            )?;
            Ok(Ok(window))
        }
        Err(refusal) => {
            write_refused(&mut run.text, set_up, refusal, &board)?;
            Ok(Err(memory))
        }
    }
}
