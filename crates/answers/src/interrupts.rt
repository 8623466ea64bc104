// The words of what a MADT says.
ghost use Rattle.std.specs.Prelude.{ℕ, List, Ok};
ghost use Rattle.answers.specs.Answer.{Put};
ghost use Rattle.answers.specs.Words.{madt_values, madt_entry_values, model_values};

use crate::{Values, put};
use madt::{Madt, MadtEntry};
use platform::Model;
use refusal::Refusal;

impl Values for Madt {
    ghost values = { madt_values };

    fn put(self, out: &mut [u64]) -> Result<(), Refusal> {
        put(
            out,
            &[
                self.local_apic_address as u64,
                self.flags as u64,
                self.supports_8259 as u64,
            ],
        )
    }
}

impl Values for MadtEntry {
    ghost values = { madt_entry_values };

    fn put(self, out: &mut [u64]) -> Result<(), Refusal> {
        put(out, &[self.number as u64, self.at as u64, self.len as u64])
    }
}

impl Values for Model {
    ghost values = { model_values };

    fn put(self, out: &mut [u64]) -> Result<(), Refusal> {
        put(
            out,
            &[
                self.known as u64,
                self.local_apic_address,
                self.also_has_legacy_pics as u64,
                self.processors as u64,
                self.io_apics as u64,
                self.interrupt_source_overrides as u64,
                self.nmi_sources as u64,
                self.local_apic_nmi_lines as u64,
            ],
        )
    }
}
