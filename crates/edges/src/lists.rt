// Lists of prices at the edges of what is accepted.
use expect::same;
use prices::{InputError, parse};
use std::alloc::Global;
use std::test::Fail;

fn refused(heap: Global, text: &[u8], error: InputError) -> Result<(), Fail> {
    same(parse(heap, text).err(), Some(error))
}

#[test]
fn bad_lists(rt: HostRuntime) -> Result<(), Fail> {
    let heap = rt.alloc();
    refused(heap, b"", InputError::NoPrices)?;
    refused(heap, b"\n", InputError::EmptyLine(1))?;
    refused(heap, b"12\n\n13\n", InputError::EmptyLine(2))?;
    refused(heap, b"12\n1 3\n", InputError::NotADigit(2, b' '))?;
    refused(heap, b"12\n-3\n", InputError::NotADigit(2, b'-'))?;
    refused(heap, b"12\r\n", InputError::NotADigit(1, b'\r'))?;
    refused(heap, b"1\n2\n4294967296\n", InputError::TooLarge(3))?;
    refused(
        heap,
        b"99999999999999999999999999999999\n",
        InputError::TooLarge(1),
    )?;
    refused(
        heap,
        b"9999999999999999999x\n",
        InputError::NotADigit(1, b'x'),
    )
}

#[test]
fn good_list(rt: HostRuntime) -> Result<(), Fail> {
    let heap = rt.alloc();
    let ended = parse(heap, b"0\n4294967295\n007\n")?;
    let open = parse(heap, b"0\n4294967295\n007")?;
    assert!(rt; ended.len() == 3);
    assert_eq!(rt; ended[0], 0);
    assert_eq!(rt; ended[1], 4_294_967_295);
    assert_eq!(rt; ended[2], 7);
    assert!(rt; open == ended);
    Ok(())
}

// The longest list, and one price more.
#[test]
fn longest_list(rt: HostRuntime) -> Result<(), Fail> {
    let heap = rt.alloc();
    let mut text = Vec::new(heap);
    for _ in 0..1024 {
        text.extend_from_slice(b"5\n")?;
    }
    assert_eq!(rt; parse(heap, &text)?.len(), 1024);
    text.extend_from_slice(b"5")?;
    refused(heap, &text, InputError::TooMany(1025))
}
