// The numbers of the reasons.
use expect::same;
use opening::Reason;
use std::test::Fail;

#[test]
fn numbers() -> Result<(), Fail> {
    same(Reason::ShortBoard.number(), 21)?;
    same(Reason::TableOutside.number(), 22)?;
    same(Reason::FrameOutside.number(), 23)?;
    same(Reason::FrameInTable.number(), 24)?;
    same(Reason::FrameTaken.number(), 25)
}
