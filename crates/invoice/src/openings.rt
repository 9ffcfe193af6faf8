// Openings that are refused, one for each reason.
ghost use Rattle.std.specs.Prelude.{IfOk};

use crate::layout::Card;
use crate::sets::armed_set;
use crate::table::{Entry, write_entry};
use crate::windows::show_report;
use anyhow::bail;
use memory::Memory;
use opening::Reason;
use stride::Stride;
use window::Window;

// One opening of a window of two lines, whose table has two entries. They always stand in the page behind the records.
#[derive(Clone, Copy)]
struct Case {
    // what is wrong with it
    words: &'static str,
    // register 1 of the set: the page where the table is said to start
    table: u32,
    frames: [u32; 2],
    // bytes of the board
    board: u32,
    due: Reason,
}

// Every opening is over the memory that the one before has given back.
pub(crate) fn show_refused_openings<M: Memory + Drop>(
    rt: &HostRuntime,
    memory: M,
    card: Card,
) -> anyhow::Result<()>
    requires { M.Memory.coherent memory }
{
    let mut memory = memory;
    for case in &cases(card) {
        memory = show_opening(rt, memory, card, case)?;
    }
    Ok(())
}

// What is not said otherwise is as it should be: the table behind the records, each entry its own page, a byte for each whole page.
fn cases(card: Card) -> [Case; 5] {
    let whole = card.whole();
    let case = |words, due| Case {
        words,
        table: card.table(),
        frames: [0, 1],
        board: whole,
        due,
    };
    [
        Case {
            board: whole.saturating_sub(1),
            ..case("A board of one byte too few:", Reason::ShortBoard)
        },
        Case {
            table: whole,
            ..case("A table behind the last page:", Reason::TableOutside)
        },
        Case {
            frames: [0, whole],
            ..case("A frame behind the last page:", Reason::FrameOutside)
        },
        Case {
            frames: [card.table(), 1],
            ..case("A frame in the table's page:", Reason::FrameInTable)
        },
        Case {
            frames: [1, 1],
            ..case("One frame for two pages:", Reason::FrameTaken)
        },
    ]
}

// Writes the table, opens the window, shows what it reports, and closes it. Any other answer than the one that is due is an error.
fn show_opening<M: Memory + Drop>(
    rt: &HostRuntime,
    memory: M,
    card: Card,
    case: &Case,
) -> anyhow::Result<M>
    requires { M.Memory.coherent memory }
    ensures { IfOk result M.Memory.coherent }
{
    println!(rt; "{}", case.words)?;
    let mut memory = memory;
    let [first, second] = case.frames;
    write_entry(&mut memory, card.table(), 0, Entry::Live(first))?;
    write_entry(&mut memory, card.table(), 1, Entry::Live(second))?;
    let set = armed_set::<Stride>(&[256, u64::from(case.table), 4, 128, 8])?;
    let mut board = vec![in rt.alloc(); 0u8; case.board as usize]?;
    let window = Window::open(set, memory, &mut board);
    show_report(rt, &window.report(), window.size())?;
    match window.opening() {
        Err(refusal) if refusal.reason == case.due => println!(rt; "  shut: {refusal}")?,
        Err(other) => bail!("the opening was refused otherwise: {other}"),
        Ok(()) => bail!("the opening was not refused"),
    }
    Ok(window.close())
}
