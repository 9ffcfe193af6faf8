// Plays cases on the proved library: a text of cases in, their answers out.
#![tactic(auto)]

mod above;
mod answers;
mod any_layer;
mod borrowed;
mod case;
mod reader;
mod stacks;
mod words;

use crate::reader::Reader;
use crate::stacks::play_case;
use anyhow::{Context, bail};
use console::end;
use std::io::{Read, Write};
use std::process::ExitCode;

fn main(rt: HostRuntime) -> anyhow::Result<ExitCode> {
    end(&rt, "conformance", play_all(&rt))
}

// Plays the cases on standard input, one after another. A line that no case has ends the run.
fn play_all(rt: &HostRuntime) -> anyhow::Result<()> {
    let heap = rt.alloc();
    let mut text = Vec::new(heap);
    rt.stdin().read_to_end(&mut text)?;
    let mut reader = Reader::new(heap);
    for (number, line) in (1u64..).zip(text.split_inclusive(|byte| *byte == b'\n')) {
        let case = reader
            .take_line(line)
            .context(format_args!("line {number}"))?;
        if let Some(case) = case {
            let answers = play_case(heap, case).context(format_args!(
                "the case that ends at line {number}"
            ))?;
            rt.stdout().write_all(answers.as_bytes())?;
        }
    }
    if reader.is_inside() {
        bail!("the last case has no end");
    }
    Ok(())
}
