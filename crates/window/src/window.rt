// A window: made by an opening, and closed again.
ghost use Rattle.std.specs.Prelude.{◌≡◌, true, is_ok, length, replicate, Decides};
ghost use Rattle.memory.specs.Reach.{OnlyRead, Reached};
ghost use Rattle.page_table.specs.Table.{table_of, GoodTable};
ghost use Rattle.page_table.specs.Tlb.{empty_tlb};
ghost use Rattle.page_table.specs.Walk.{shown};
ghost use Rattle.opening.specs.Opening.{check_opening, Openable};
ghost use Rattle.window.specs.Report.{reported};
ghost use Rattle.window.specs.State.{Standing, Called};
ghost use Rattle.window.specs.Laws.{shown_formed};

use crate::report::WindowReport;
use mapping::{ArmedSet, Mapping, WindowAddress};
use memory::{Fault, Memory, check_run};
use opening::{OpeningRefusal, check_opening};
use page_table::Tlb;
use transfer::{read_run, write_run};

// A window is open or shut from its opening on. It has no ghost field, so that windows stack over borrowed bytes.
#[derive(Drop)]
pub struct Window<P: Mapping, M: Memory> {
    mapping: P,
    below: M,
    tlb: Tlb,
    // what its opening answered
    opening: Result<(), OpeningRefusal>,
}

impl<P: Mapping, M: Memory> Window<P, M> {
    // Uses the set up, and always makes a window: a shut one where the opening is refused. The board, a byte for each whole page of the
    // memory, is what the opening takes notes on; it is all zero afterwards.
    pub fn open(set: ArmedSet<P>, below: M, board: &mut [u8]) -> Window<P, M>
        requires armed { P.Mapping.armed set.mapping }
        requires coherent { M.Memory.coherent below }
        ensures opening { result.opening ≡ check_opening (table_of (P.Mapping.meaning set.mapping)) (M.Memory.meaning below) (length board.old) }
        ensures opens { Decides (is_ok result.opening) (Openable (table_of (P.Mapping.meaning set.mapping)) (M.Memory.meaning below) (length board.old)) }
        ensures board { board.new ≡ replicate (length board.old) 0 }
        ensures mapping { result.mapping ≡ set.mapping }
        ensures tlb { result.tlb ≡ empty_tlb }
        ensures meaning { M.Memory.meaning result.below ≡ M.Memory.meaning below }
        ensures coherent { M.Memory.coherent result.below }
        ensures reads { OnlyRead M.Memory.step below result.below }
        ensures table { is_ok result.opening ≡ true → GoodTable (table_of (P.Mapping.meaning result.mapping)) (M.Memory.meaning result.below) }
        ensures standing { Standing (P.Mapping.armed result.mapping) (M.Memory.coherent result.below) (is_ok result.opening) (P.Mapping.meaning result.mapping) (M.Memory.meaning result.below) result.tlb }
    {
        let mapping = set.into_mapping();
        let mut below = below;
        let opening = check_opening(&mapping, &mut below, board);
        Window {
            mapping,
            below,
            tlb: Tlb::new(),
            opening,
        }
    }

    // Gives back the memory below.
    pub fn close(self) -> M
        ensures { result ≡ self.below }
    {
        let Window { below, .. } = self;
        below
    }

    // Acceptance if it is open, or why it is shut.
    pub fn opening(&self) -> Result<(), OpeningRefusal>
        ensures { result ≡ self.now.opening }
    {
        let Window { opening, .. } = self;
        *opening
    }

    pub fn report(&self) -> WindowReport
        ensures { result ≡ reported P.Mapping.TYPE_NUMBER self.now.opening self.now.tlb }
    {
        let refusal = self.opening.err();
        WindowReport {
            type_number: P::TYPE_NUMBER,
            reason: refusal.map_or(0, |refusal| refusal.reason.number()),
            entry: refusal.map_or(0, |refusal| refusal.entry),
            lookups: self.tlb.lookups(),
            fills: self.tlb.fills(),
        }
    }
}

impl<P: Mapping, M: Memory> Memory for Window<P, M> {
    ghost meaning = { λ w. shown (is_ok w.opening) (P.Mapping.meaning w.mapping) (M.Memory.meaning w.below) };

    ghost coherent = { λ w. Standing (P.Mapping.armed w.mapping) (M.Memory.coherent w.below) (is_ok w.opening) (P.Mapping.meaning w.mapping) (M.Memory.meaning w.below) w.tlb };

    ghost formed = { λ w c. shown_formed (is_ok w.opening) (P.Mapping.meaning w.mapping) (M.Memory.meaning w.below) w.tlb c.ready };

    ghost step = { λ before call after.
        Called ((after.mapping ≡ before.mapping) × (after.opening ≡ before.opening)) (Reached M.Memory.step before.below after.below)
        (is_ok before.opening) (P.Mapping.meaning before.mapping) (M.Memory.meaning before.below) (M.Memory.meaning after.below) before.tlb after.tlb call };

    // The size of the image; 0 if the window is shut.
    fn size(&self) -> u64 {
        if self.opening.is_ok() {
            self.mapping.image_size()
        } else {
            0
        }
    }

    // A shut window has no cells, so no run fits it.
    fn read(&mut self, a: u64, buffer: &mut [u8]) -> Result<(), Fault> {
        if self.opening.is_err() {
            return check_run(0, a, buffer.len());
        }
        read_run(
            &self.mapping,
            &mut self.below,
            &mut self.tlb,
            WindowAddress(a),
            buffer,
        )
    }

    fn write(&mut self, a: u64, bytes: &[u8]) -> Result<(), Fault> {
        if self.opening.is_err() {
            return check_run(0, a, bytes.len());
        }
        write_run(
            &self.mapping,
            &mut self.below,
            &mut self.tlb,
            WindowAddress(a),
            bytes,
        )
    }
}
