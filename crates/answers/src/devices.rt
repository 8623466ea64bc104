// The words of what an HPET and an MCFG say.
ghost use Rattle.std.specs.Prelude.{ℕ, List, Ok};
ghost use Rattle.answers.specs.Answer.{Put};
ghost use Rattle.answers.specs.Words.{hpet_values, window_values};

use crate::{Values, put};
use hpet::HpetInfo;
use mcfg::McfgEntry;
use refusal::Refusal;

impl Values for HpetInfo {
    ghost values = { hpet_values };

    fn put(self, out: &mut [u64]) -> Result<(), Refusal> {
        put(
            out,
            &[
                self.event_timer_block_id as u64,
                self.hardware_rev as u64,
                self.num_comparators as u64,
                self.main_counter_is_64bits as u64,
                self.legacy_irq_capable as u64,
                self.pci_vendor_id as u64,
                self.base_address,
                self.hpet_number as u64,
                self.clock_tick_unit as u64,
                u8::from(self.page_protection) as u64,
            ],
        )
    }
}

impl Values for McfgEntry {
    ghost values = { window_values };

    fn put(self, out: &mut [u64]) -> Result<(), Refusal> {
        put(
            out,
            &[
                self.base_address,
                self.pci_segment_group as u64,
                self.bus_number_start as u64,
                self.bus_number_end as u64,
            ],
        )
    }
}
