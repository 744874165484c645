// The S-DSP as a chip. Each call only passes on its own, so that it is inlined.
ghost use Rattle.std.specs.Prelude.{◌==◌};
ghost use Rattle.std.specs.FinSet as set;
ghost use Rattle.reach_map.specs.Reach.{window_pages};
ghost use Rattle.dsp_core.specs.DspChip.{dsp_chip, dsp_saving};
ghost use Rattle.dsp_core.specs.DspLaws.{dsp_is_lawful, dsp_saves_lawfully};

use crate::dsp::Dsp;
use crate::saved::DspState;
use aram_core::{Aram, Window};
use chip_form::Chip;
use dsp_state::{ChipState, is_result};
use trace_form::{Frames, Records};

impl Chip for Dsp {
    type State = ChipState;

    type Saved = DspState;

    ghost state = { λ d. d.state };

    ghost sample = { λ d. d.sample };

    ghost batches = { λ d. d.batches };

    ghost total = { λ d. d.total };

    ghost meaning = { dsp_chip };

    ghost saving = { dsp_saving };

    ghost written_pages = { λ window. set.from_list (window_pages window) };

    #[inline]
    fn reg_read(&self, addr: u8) -> u8 {
        self.reg_read(addr)
    }

    #[inline]
    fn reg_write(&mut self, addr: u8, value: u8) {
        self.reg_write(addr, value);
    }

    #[inline]
    fn is_result(&self, addr: u8) -> bool {
        is_result(addr)
    }

    #[inline]
    fn advance(
        &mut self,
        n: u8,
        memory: &mut Aram,
        mask: u8,
        frames: &mut Frames,
        records: &mut Records,
    ) {
        self.advance(n, memory, mask, frames, records);
    }

    #[inline]
    fn writes_page(&self, _memory: &Aram, page: u8) -> bool {
        self.writes_page(page)
    }

    #[inline]
    fn written_window(&self) -> Window {
        self.written_window()
    }

    #[inline]
    fn reads_page(&self, memory: &Aram, page: u8) -> bool {
        self.reads_page(memory, page)
    }

    #[inline]
    fn is_entangled(&self, memory: &Aram) -> bool {
        self.is_entangled(memory)
    }

    #[inline]
    fn batches(&self) -> u64 {
        self.batches()
    }

    #[inline]
    fn total(&self) -> u64 {
        self.total()
    }

    fn save(&self) -> DspState {
        self.save()
    }

    fn load(&mut self, saved: &DspState) {
        self.load(saved);
    }

    #[inline]
    fn sample(&self) -> u32 {
        self.sample()
    }

    ghost lawful = { dsp_is_lawful };

    ghost saves_lawfully = { dsp_saves_lawfully };
}
