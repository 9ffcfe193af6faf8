// What is done to the borrowed bytes before there is a memory, and their digest at the end.
use crate::case::Bottom;
use anyhow::{Context, bail};
use units::{CHECKED_LINE, LINE};

const FIRST_DIGEST: u64 = 0xCBF2_9CE4_8422_2325;

const DIGEST_FACTOR: u64 = 0x100_0000_01B3;

// Every byte comes from the generator that begins with this seed. What is cut off at 64 bits is no part of a number below 2^31.
pub(crate) fn fill(bytes: &mut [u8], seed: u64) -> anyhow::Result<()> {
    if seed >= 1 << 31 {
        bail!("the seed is 2^31 or more");
    }
    let mut x = seed;
    for byte in bytes {
        x = x.wrapping_mul(1_103_515_245).wrapping_add(12_345) & 0x7fff_ffff;
        *byte = (x >> 16 & 0xff) as u8;
    }
    Ok(())
}

// The cells from this address on become these bytes.
pub(crate) fn set_cells(
    bottom: Bottom,
    borrowed: &mut [u8],
    address: u64,
    bytes: &[u8],
) -> anyhow::Result<()> {
    for (a, byte) in (address..).zip(bytes) {
        *cell(bottom, borrowed, a)? = *byte;
    }
    Ok(())
}

pub(crate) fn clear_cells(
    bottom: Bottom,
    borrowed: &mut [u8],
    address: u64,
    count: u64,
) -> anyhow::Result<()> {
    for a in address..address.saturating_add(count) {
        *cell(bottom, borrowed, a)? = 0;
    }
    Ok(())
}

// The borrowed byte in which a cell stands.
fn cell(bottom: Bottom, borrowed: &mut [u8], a: u64) -> anyhow::Result<&mut u8> {
    let (line, offset) = ((a / LINE) as usize, (a % LINE) as usize);
    let line_bytes = match bottom {
        Bottom::Plain => LINE as usize,
        Bottom::Checked => CHECKED_LINE,
    };
    borrowed
        .chunks_exact_mut(line_bytes)
        .nth(line)
        .and_then(|line| line.get_mut(offset))
        .context(format_args!("the memory has no cell {a}"))
}

// The check byte of each whole line becomes the exclusive or of its cells.
pub(crate) fn seal(bottom: Bottom, borrowed: &mut [u8]) {
    if matches!(bottom, Bottom::Plain) {
        return;
    }
    for line in borrowed.chunks_exact_mut(CHECKED_LINE) {
        if let Some((check, cells)) = line.split_last_mut() {
            *check = cells.iter().fold(0, |all, byte| all ^ byte);
        }
    }
}

// FNV-1a of 64 bits.
pub(crate) fn digest(bytes: &[u8]) -> u64 {
    bytes.iter().fold(FIRST_DIGEST, |digest, byte| {
        (digest ^ u64::from(*byte)).wrapping_mul(DIGEST_FACTOR)
    })
}
