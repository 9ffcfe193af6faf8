// Stacks of none to three windows over both bottoms, by the four mappings in several orders.
use crate::layer::live;
use crate::placing::Placing;
use crate::stack::{
    CHECKED_BYTES, Copied, PLAIN_BYTES, bottom, check_memory, check_top, window_over,
};
use checked::CheckByte;
use colour::Colour;
use direct::Direct;
use mapping::Mapping;
use memory::{ByteMemory, LineFormat};
use plain::CellsAlone;
use std::alloc::Global;
use std::test::Fail;
use stride::Stride;
use transpose::Transpose;
use window::Window;

// On the bottom itself, over so many bytes.
fn none_over<F: LineFormat>(heap: Global, borrowed: usize) -> Result<(), Fail> {
    let mut bytes = vec![in heap; 0u8; borrowed]?;
    let Copied {
        mut memory,
        mut copy,
    } = bottom::<F>(heap, &mut bytes)?;
    check_memory(heap, &mut memory, &mut copy, 1)
}

fn one_over<P: Mapping + Placing, F: LineFormat>(
    heap: Global,
    borrowed: usize,
) -> Result<(), Fail> {
    let mut bytes = vec![in heap; 0u8; borrowed]?;
    let bottom = bottom::<F>(heap, &mut bytes)?;
    check_top::<P, ByteMemory<F>>(heap, bottom, live::<P>(0))
}

// The lower mapping first.
fn two_over<P: Mapping + Placing, Q: Mapping + Placing, F: LineFormat>(
    heap: Global,
    borrowed: usize,
) -> Result<(), Fail> {
    let mut bytes = vec![in heap; 0u8; borrowed]?;
    let bottom = bottom::<F>(heap, &mut bytes)?;
    let lower = window_over::<P, ByteMemory<F>>(heap, bottom, live::<P>(0))?;
    check_top::<Q, Window<P, ByteMemory<F>>>(heap, lower, live::<Q>(1))
}

// The lowest mapping first.
fn three_over<P: Mapping + Placing, Q: Mapping + Placing, R: Mapping + Placing, F: LineFormat>(
    heap: Global,
    borrowed: usize,
) -> Result<(), Fail> {
    let mut bytes = vec![in heap; 0u8; borrowed]?;
    let bottom = bottom::<F>(heap, &mut bytes)?;
    let lower = window_over::<P, ByteMemory<F>>(heap, bottom, live::<P>(0))?;
    let middle = window_over::<Q, Window<P, ByteMemory<F>>>(heap, lower, live::<Q>(1))?;
    check_top::<R, Window<Q, Window<P, ByteMemory<F>>>>(heap, middle, live::<R>(2))
}

fn one<P: Mapping + Placing>(heap: Global) -> Result<(), Fail> {
    one_over::<P, CellsAlone>(heap, PLAIN_BYTES)?;
    one_over::<P, CheckByte>(heap, CHECKED_BYTES)
}

fn two<P: Mapping + Placing, Q: Mapping + Placing>(heap: Global) -> Result<(), Fail> {
    two_over::<P, Q, CellsAlone>(heap, PLAIN_BYTES)?;
    two_over::<P, Q, CheckByte>(heap, CHECKED_BYTES)
}

fn three<P: Mapping + Placing, Q: Mapping + Placing, R: Mapping + Placing>(
    heap: Global,
) -> Result<(), Fail> {
    three_over::<P, Q, R, CellsAlone>(heap, PLAIN_BYTES)?;
    three_over::<P, Q, R, CheckByte>(heap, CHECKED_BYTES)
}

#[test]
fn no_window(rt: HostRuntime) -> Result<(), Fail> {
    let heap = rt.alloc();
    none_over::<CellsAlone>(heap, PLAIN_BYTES)?;
    none_over::<CheckByte>(heap, CHECKED_BYTES)
}

#[test]
fn one_window(rt: HostRuntime) -> Result<(), Fail> {
    let heap = rt.alloc();
    one::<Direct>(heap)?;
    one::<Colour>(heap)?;
    one::<Stride>(heap)?;
    one::<Transpose>(heap)
}

#[test]
fn two_windows(rt: HostRuntime) -> Result<(), Fail> {
    let heap = rt.alloc();
    two::<Direct, Stride>(heap)?;
    two::<Stride, Colour>(heap)?;
    two::<Colour, Transpose>(heap)?;
    two::<Transpose, Direct>(heap)?;
    two::<Stride, Stride>(heap)?;
    two::<Colour, Colour>(heap)?;
    two::<Direct, Transpose>(heap)?;
    two::<Transpose, Colour>(heap)
}

#[test]
fn three_windows(rt: HostRuntime) -> Result<(), Fail> {
    let heap = rt.alloc();
    three::<Direct, Colour, Stride>(heap)?;
    three::<Colour, Stride, Transpose>(heap)?;
    three::<Stride, Transpose, Direct>(heap)?;
    three::<Transpose, Direct, Colour>(heap)?;
    three::<Transpose, Stride, Colour>(heap)?;
    three::<Stride, Direct, Stride>(heap)
}
