// The words of what a FADT says.
ghost use Rattle.std.specs.Prelude.{◌≡◌, ℕ, List, Ok};
ghost use Rattle.fadt.specs.Profiles.{profile_number};
ghost use Rattle.answers.specs.Answer.{Put};
ghost use Rattle.answers.specs.Words.{profile_values, fixed_values, generic_values};

use crate::{Values, put};
use address::GenericAddress;
use fadt::{Fixed, PowerProfile};
use refusal::Refusal;

// The number that stands for the profile, in every answer that has it.
pub fn profile_number(profile: PowerProfile) -> u64
    ensures { result ≡ profile_number profile }
{
    u8::from(profile) as u64
}

impl Values for PowerProfile {
    ghost values = { profile_values };

    fn put(self, out: &mut [u64]) -> Result<(), Refusal> {
        put(out, &[profile_number(self)])
    }
}

impl Values for Fixed {
    ghost values = { fixed_values };

    fn put(self, out: &mut [u64]) -> Result<(), Refusal> {
        put(
            out,
            &[
                self.sci_interrupt as u64,
                self.smi_cmd_port as u64,
                self.acpi_enable as u64,
                self.acpi_disable as u64,
                self.s4bios_req as u64,
                self.pstate_control as u64,
                self.gpe1_base as u64,
                self.c_state_control as u64,
                self.worst_c2_latency as u64,
                self.worst_c3_latency as u64,
                self.flush_size as u64,
                self.flush_stride as u64,
                self.duty_offset as u64,
                self.duty_width as u64,
                self.day_alarm as u64,
                self.month_alarm as u64,
                self.century as u64,
                self.iapc_boot_arch as u64,
                self.flags as u64,
            ],
        )
    }
}

impl Values for GenericAddress {
    ghost values = { generic_values };

    fn put(self, out: &mut [u64]) -> Result<(), Refusal> {
        put(
            out,
            &[
                u8::from(self.address_space) as u64,
                self.bit_width as u64,
                self.bit_offset as u64,
                u8::from(self.access_size) as u64,
                self.address,
            ],
        )
    }
}
