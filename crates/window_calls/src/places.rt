// Where the bytes of each mapping stand, in the memory below.
use crate::scenes::{LIVE, Scene};
use crate::sweep::{Piece, standing, sweep};
use colour::Colour;
use direct::Direct;
use memory::Cause;
use std::test::Fail;
use stride::Stride;
use transpose::Transpose;

// The last line that there could be, to which no image reaches.
const LAST_LINE: u64 = u64::MAX - 127;

// Three pages; the third is out.
#[test]
fn direct(rt: HostRuntime) -> Result<(), Fail> {
    let scene = Scene {
        registers: [12288, 1, 0, 0, 0],
        entries: &[(0, 0x8000_0005), (1, 0x8000_0000), (2, 0xb000_0003)],
    };
    let out = Piece {
        first: 8192,
        cells: 4096,
        at: Err(Cause::PageOut),
        marks: &[],
    };
    sweep::<Direct>(
        rt.alloc(),
        scene,
        &[
            standing(0, 4096, 20480, &[(4096, 0x40, 0x60)]),
            standing(4096, 4096, 0, &[(4100, 0x40, 0x60)]),
            out,
        ],
        &[0, 3968, 4096, 8064, 8192, 12160, 12288, LAST_LINE],
    )
}

// Two colours of 8,192 bytes in two ways; pages 0 and 1 of the data are the first, 2 and 3 the second, of which 2 is not valid.
#[test]
fn colour(rt: HostRuntime) -> Result<(), Fail> {
    let scene = Scene {
        registers: [32768, 1, 16384, 8192, 4096],
        entries: &[
            (0, 0x8000_0007),
            (1, 0x8000_0000),
            (2, 0x6000_0004),
            (3, 0x8000_0002),
        ],
    };
    let not_valid = Piece {
        first: 20480,
        cells: 4096,
        at: Err(Cause::NoPage),
        marks: &[],
    };
    sweep::<Colour>(
        rt.alloc(),
        scene,
        &[
            standing(4096, 4096, 28672, &[(4096, 0x40, 0x60)]),
            standing(8192, 4096, 0, &[(4100, 0x40, 0x60)]),
            not_valid,
            standing(24576, 4096, 8192, &[(4108, 0x40, 0x60)]),
        ],
        &[
            0, 3968, 4096, 8064, 8192, 12160, 12288, 20352, 20480, 24448, 24576, 28544, 28672,
            32640, 32768,
        ],
    )
}

#[test]
fn stride(rt: HostRuntime) -> Result<(), Fail> {
    sweep::<Stride>(
        rt.alloc(),
        LIVE,
        &[
            standing(0, 32, 20576, &[(4096, 0x40, 0x60)]),
            standing(32, 32, 22752, &[(4096, 0x40, 0x60)]),
            standing(64, 32, 352, &[(4100, 0x40, 0x60)]),
            standing(96, 32, 2528, &[(4100, 0x40, 0x60)]),
            standing(128, 32, 12896, &[(4104, 0x40, 0x60)]),
            standing(160, 32, 15072, &[(4104, 0x40, 0x60)]),
            standing(192, 32, 25440, &[(4108, 0x40, 0x60)]),
            standing(224, 32, 27616, &[(4108, 0x40, 0x60)]),
        ],
        &[0, 128, 256],
    )
}

// Four rows of two elements of 32 bytes, one row every 3,232 bytes: the elements of the image are at 0, 3232, 6464 and 9696 of the data,
// then at 32, 3264, 6496 and 9728.
#[test]
fn transpose(rt: HostRuntime) -> Result<(), Fail> {
    let scene = Scene {
        registers: [256, 1, 32, 3232, 4],
        entries: &[(0, 0x8000_0005), (1, 0x8000_0000), (2, 0x8000_0003)],
    };
    sweep::<Transpose>(
        rt.alloc(),
        scene,
        &[
            standing(0, 32, 20480, &[(4096, 0x40, 0x60)]),
            standing(32, 32, 23712, &[(4096, 0x40, 0x60)]),
            standing(64, 32, 2368, &[(4100, 0x40, 0x60)]),
            standing(96, 32, 13792, &[(4104, 0x40, 0x60)]),
            standing(128, 32, 20512, &[(4096, 0x40, 0x60)]),
            standing(160, 32, 23744, &[(4096, 0x40, 0x60)]),
            standing(192, 32, 2400, &[(4100, 0x40, 0x60)]),
            standing(224, 32, 13824, &[(4104, 0x40, 0x60)]),
        ],
        &[0, 128, 256],
    )
}
