// Where the bytes of an image stand.
use colour::Colour;
use direct::Direct;
use expect::{armed_set, same};
use mapping::{Mapping, WindowAddress};
use std::test::Fail;
use stride::Stride;
use transpose::Transpose;

// Window addresses, each with the place of its byte under these values, if there is one.
fn check_places<M: Mapping>(values: &[u64], cases: &[(u64, Option<u64>)]) -> Result<(), Fail> {
    let mapping = armed_set::<M>(values)?.into_mapping();
    for (s, expected) in cases {
        let place = mapping.place(WindowAddress(*s));
        same(place.map(|v| v.0), *expected)?;
    }
    Ok(())
}

#[test]
fn direct() -> Result<(), Fail> {
    check_places::<Direct>(
        &[256],
        &[
            (0, Some(0)),
            (255, Some(255)),
            (256, None),
            (u64::MAX, None),
        ],
    )
}

#[test]
fn stride() -> Result<(), Fail> {
    check_places::<Stride>(
        &[128, 0, 4, 128, 8],
        &[
            (0, Some(8)),
            (3, Some(11)),
            (4, Some(136)),
            (127, Some(3979)),
            (128, None),
            (u64::MAX, None),
        ],
    )?;
    // past 32 bits
    check_places::<Stride>(
        &[1048704, 0, 4, 16384, 0],
        &[(1048703, Some(4295475203)), (1048704, None)],
    )
}

#[test]
fn transpose() -> Result<(), Fail> {
    check_places::<Transpose>(
        &[128, 0, 4, 32, 4],
        &[
            (0, Some(0)),
            (4, Some(32)),
            (15, Some(99)),
            (16, Some(4)),
            (22, Some(38)),
            (127, Some(127)),
            (128, None),
        ],
    )
}

#[test]
fn colour() -> Result<(), Fail> {
    check_places::<Colour>(
        &[32768, 0, 16384, 4096, 8192],
        &[
            (0, None),
            (8191, None),
            (8192, Some(0)),
            (12287, Some(4095)),
            (12288, None),
            (24575, None),
            (24576, Some(4096)),
            (28671, Some(8191)),
            (28672, None),
            (40960, None),
        ],
    )
}
