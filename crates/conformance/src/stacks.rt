// Plays a case: its bottom, the stack over it, and what is said at the end.
use crate::above::{Above, Four, Run};
use crate::borrowed::digest;
use crate::case::{Bottom, Case};
use crate::words::Hexadecimal;
use checked::CheckByte;
use memory::{ByteMemory, LineFormat, Memory};
use plain::CellsAlone;
use std::alloc::Global;

// The answers to a case.
pub(crate) fn play_case(heap: Global, case: Case) -> anyhow::Result<String> {
    let Case {
        name,
        bottom,
        layers,
        mut bytes,
        set_ups,
        calls,
        shows,
    } = case;
    let mut run = Run {
        heap,
        layers: layers.iter(),
        set_ups: set_ups.iter(),
        calls,
        text: format!(in heap; "case {name}\n")?,
    };
    match bottom {
        Bottom::Plain => play_over::<CellsAlone>(&mut run, &mut bytes)?,
        Bottom::Checked => play_over::<CheckByte>(&mut run, &mut bytes)?,
    }
    let mut text = run.text;
    writeln!(text, "closed {} {:016X}", bytes.len(), digest(&bytes))?;
    for show in &shows {
        let end = show.index.saturating_add(show.count).min(bytes.len());
        let shown = bytes.get(show.index..end).unwrap_or_default();
        writeln!(text, "shown {}", Hexadecimal(shown))?;
    }
    writeln!(text, "end")?;
    Ok(text)
}

// Over a bottom of these bytes, which is let go afterwards.
fn play_over<F: LineFormat>(run: &mut Run<'_>, bytes: &mut [u8]) -> anyhow::Result<()> {
    let bottom = ByteMemory::<F>::new(bytes);
    writeln!(run.text, "bottom {}", bottom.size())?;
    Four::play(run, bottom)?;
    Ok(())
}
