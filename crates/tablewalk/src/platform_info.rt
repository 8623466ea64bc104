// What a kernel asks first about its machine: power profile, interrupt model and power management timer in one answer.
ghost use Rattle.std.specs.Prelude.{◌≡◌, ℕ, List, Ok};
ghost use Rattle.tables.specs.Tables.{nth_table};
ghost use Rattle.sdt.specs.declared.Wanted.TheVariants.{Signature};
ghost use Rattle.fadt.specs.Fields.{fixed_fields};
ghost use Rattle.answers.specs.Answer.{Put, Reported};
ghost use Rattle.tablewalk.specs.Platform.{model_part, wide_timer, timer_of, platform_info_of, timer_values, platform_values, platform_answer};

use crate::find::{APIC, FACP, first_table};
use address::GenericAddress;
use answers::fixed::profile_number;
use answers::{Values, put, report};
use fadt::{PowerProfile, RegisterBlock};
use platform::Model;
use refusal::Refusal;

// The power management timer: where its register block lies, and whether it has 32 bits.
#[derive(Clone, Copy)]
pub struct PmTimer {
    pub base: GenericAddress,
    pub supports_32bit: bool,
}

// The machine, under the names of the Rust crate. A machine without a timer has none, which is no refusal.
#[derive(Clone, Copy)]
pub struct PlatformInfo {
    pub power_profile: PowerProfile,
    pub interrupt_model: Model,
    pub pm_timer: Option<PmTimer>,
}

// The model that the MADT describes. A machine without a valid MADT has an unknown model, which is no refusal.
#[tactic(auto, unfolding(crate::specs::Platform::model_part))]
fn interrupt_model(image: &[u8], ranges: &[u64], rsdp: u64) -> Result<Model, Refusal>
    ensures { result ≡ model_part image.now ranges.now (nth_table image.now ranges.now rsdp (Signature 0x43495041) 44 0) }
{
    match first_table(image, ranges, rsdp, APIC, 44) {
        Ok(madt) => platform::interrupt_model(madt),
        Err(_) => Ok(Model::default()),
    }
}

// Whether the timer has 32 bits.
#[tactic(auto, unfolding(crate::specs::Platform::wide_timer))]
fn is_wide(fadt: &[u8]) -> bool
    ensures { result ≡ wide_timer (fixed_fields fadt.now) }
{
    fadt::fixed_fields(fadt).is_ok_and(|fixed| fadt::flag(
        u64::from(fixed.flags),
        fadt::PM_TIMER_IS_32_BIT,
    ))
}

// The timer, if the machine has one.
#[tactic(auto, unfolding(crate::specs::Platform::timer_of, crate::specs::Platform::timer_at, field::specs::First::when, field::specs::First::differ))]
fn pm_timer(fadt: &[u8]) -> Result<Option<PmTimer>, Refusal>
    ensures { result ≡ timer_of fadt.now }
{
    match fadt::register_block(fadt, RegisterBlock::PmTimer) {
        Ok(base) => Ok(Some(PmTimer {
            base,
            supports_32bit: is_wide(fadt),
        })),
        Err(Refusal::NotThere) => Ok(None),
        Err(refusal) => Err(refusal),
    }
}

// Everything that a kernel asks first.
#[tactic(auto, unfolding(crate::specs::Platform::platform_info_of, crate::specs::Platform::info_with))]
fn platform_info(image: &[u8], ranges: &[u64], rsdp: u64) -> Result<PlatformInfo, Refusal>
    ensures { result ≡ platform_info_of image.now ranges.now rsdp }
{
    let fadt = first_table(image, ranges, rsdp, FACP, 116)?;
    Ok(PlatformInfo {
        power_profile: fadt::power_profile(fadt)?,
        interrupt_model: interrupt_model(image, ranges, rsdp)?,
        pm_timer: pm_timer(fadt)?,
    })
}

// Whether there is a timer, where its block lies, and whether it has 32 bits: all zero where there is none.
fn timer_words(timer: Option<PmTimer>) -> [u64; 7]
    ensures { result ≡ timer_values timer }
{
    match timer {
        Some(
            PmTimer {
                base,
                supports_32bit,
            },
        ) => [
            1,
            u8::from(base.address_space) as u64,
            base.bit_width as u64,
            base.bit_offset as u64,
            u8::from(base.access_size) as u64,
            base.address,
            supports_32bit as u64,
        ],
        None => [0; 7],
    }
}

// The words of the model and of the address are spelled again: arrays of two lengths can't be joined without a computed length or
// a heap.
impl Values for PlatformInfo {
    ghost values = { platform_values };

    fn put(self, out: &mut [u64]) -> Result<(), Refusal> {
        let m = self.interrupt_model;
        let [there, space, width, offset, size, address, wide] = timer_words(self.pm_timer);
        put(
            out,
            &[
                profile_number(self.power_profile),
                m.known as u64,
                m.local_apic_address,
                m.also_has_legacy_pics as u64,
                m.processors as u64,
                m.io_apics as u64,
                m.interrupt_source_overrides as u64,
                m.nmi_sources as u64,
                m.local_apic_nmi_lines as u64,
                there,
                space,
                width,
                offset,
                size,
                address,
                wide,
            ],
        )
    }
}

// Power profile; the interrupt model as `tablewalk_interrupt_model` has it, all zero where there is no valid MADT; whether
// there is a power management timer, its space, bit width, bit offset, access size and address, and whether it has 32 bits.
#[tactic(auto, unfolding(crate::specs::Platform::platform_answer))]
#[unsafe(no_mangle)]
pub extern "C" fn tablewalk_platform(
    image: &[u8],
    ranges: &[u64],
    rsdp: u64,
    out: &mut [u64],
) -> u32
    ensures { Reported (platform_answer image.now ranges.now rsdp) result out.old out.new }
{
    report(platform_info(image, ranges, rsdp), out)
}
