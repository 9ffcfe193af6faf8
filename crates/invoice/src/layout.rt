// Where everything stands on the card.
use anyhow::bail;
use records::PRICES;
use units::{CHECKED_LINE, LINE, PAGE};

// Lines in a page.
const PAGE_LINES: usize = 32;

// The records take the first pages of the memory. In the page behind them stands the page table of the stride mapping, and in the next
// one that of a lower window.
#[derive(Clone, Copy)]
pub(crate) struct Card {
    pub(crate) count: u32,
    // lines of the image: whole groups of 32 records, each of which fills a page
    pub(crate) lines: u32,
    // pages that the records take, but at least two: the openings that are refused have two entries each
    pub(crate) pages: u32,
}

impl Card {
    // The card for a list of prices, which has at least one line.
    pub(crate) fn of(prices: &[u32]) -> anyhow::Result<Card> {
        let count = prices.len();
        if count < PRICES {
            bail!("line {count}: the list ends here, and a line of the image takes 32 prices");
        }
        Ok(Card {
            count: u32::try_from(count)?,
            lines: u32::try_from(count / PRICES)?,
            pages: u32::try_from(count.div_ceil(PRICES))?.max(2),
        })
    }

    // The page where the table of the stride mapping starts.
    pub(crate) fn table(self) -> u32 {
        self.pages
    }

    // The page where the table of the lower window starts.
    pub(crate) fn lower_table(self) -> u32 {
        self.pages.saturating_add(1)
    }

    // All pages of the memory.
    pub(crate) fn whole(self) -> u32 {
        self.pages.saturating_add(2)
    }

    // How many bytes a checked memory of these pages borrows.
    pub(crate) fn borrowed(self) -> usize {
        self.whole() as usize * PAGE_LINES * CHECKED_LINE
    }

    // The records of the image.
    pub(crate) fn dense(self) -> u32 {
        self.lines.saturating_mul(PRICES as u32)
    }

    // What the registers of the stride mapping take: the price of four bytes at offset 8 of each 128.
    pub(crate) fn stride_settings(self) -> [u64; 5] {
        [
            u64::from(self.lines) * LINE,
            u64::from(self.table()),
            4,
            128,
            8,
        ]
    }

    // What those of the lower window's direct mapping take: the records, and the page of the table behind them.
    pub(crate) fn direct_settings(self) -> [u64; 2] {
        [
            u64::from(self.lower_table()) * PAGE,
            u64::from(self.lower_table()),
        ]
    }
}
