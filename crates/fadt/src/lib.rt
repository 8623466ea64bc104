// The Fixed ACPI Description Table, "FACP" (ACPI 6.5, section 5.2.9; docs/TABLES.md, section 10).
// Every question takes a slice that is meant to be the table, and has an answer for any slice.
#![tactic(auto)]

ghost use Rattle.std.specs.Prelude.{◌≡◌, ◌+◌, ◌≤◌, ◌<◌, length, IfOk};
ghost use Rattle.fadt.specs.Forms.{form_of};
ghost use Rattle.fadt.specs.Values.{nonzero, formed, facs_address, dsdt_address, reset_value, arm_boot_arch};
ghost use Rattle.fadt.specs.Blocks.{place_of, narrow_block, block, register_block, nth_block, nth_register_block};
ghost use Rattle.fadt.specs.Registers.{register_at, reset_register, sleep_register, sleep_control_register, sleep_status_register};
ghost use Rattle.fadt.specs.Fields.{fixed_in, fixed_fields};
ghost use Rattle.fadt.specs.Profiles.{profile_of, profile_number, power_profile};
ghost use Rattle.fadt.specs.Flags.{flag_of};

use address::{AccessSize, AddressSpace, GenericAddress};
use refusal::Refusal;

mod table;

use table::Fadt;

// Which form of an address counts. The two callers read different things at a form, so each matches on it.
#[derive(Clone, Copy)]
enum Form {
    Wide,
    Narrow,
}

impl Fadt<'_> {
    // The form that counts of an address whose wide form stands at `at`. The table holds that form if it counts.
    #[tactic(auto, using(crate::proofs::RoomLaws::tests), unfolding(crate::specs::Forms::form_of))]
    fn form_of(self, at: usize) -> Result<Form, Refusal>
        ensures is { result ≡ form_of self.entry.bytes.now at }
        ensures room { IfOk result (λ form. form ≡ Form.Wide → at + 8 ≤ length self.entry.bytes.now) }
    {
        if self.is_early() {
            return Ok(Form::Narrow);
        }
        self.holds(at, 8)?;
        if field::u64_at(self.bytes, at) == 0 {
            return Ok(Form::Narrow);
        }
        Ok(Form::Wide)
    }

    // An address that has a narrow and a wide form, by the form that counts. The narrow one stands in the fixed part, which this and
    // `narrow_block` alone demand: a type for such offsets would be built at each call.
    #[tactic(auto, unfolding(crate::specs::Values::formed))]
    fn formed(self, narrow: usize, wide: usize) -> Result<u64, Refusal>
        requires { narrow ≤ 112 }
        ensures { result ≡ formed self.entry.bytes.now narrow wide }
    {
        match self.form_of(wide)? {
            Form::Wide => nonzero(field::u64_at(self.bytes, wide)),
            Form::Narrow => nonzero(field::u32_at(self.bytes, narrow) as u64),
        }
    }
}

// An address of zero is none.
#[tactic(auto, using(crate::proofs::RoomLaws::tests), unfolding(crate::specs::Values::nonzero))]
fn nonzero(address: u64) -> Result<u64, Refusal>
    ensures { result ≡ nonzero address }
{
    if address == 0 {
        return Err(Refusal::NotThere);
    }
    Ok(address)
}

// The physical address of the FACS. It and `dsdt_address` are both public, so they stay two functions: what they share is `formed`.
#[tactic(auto, using(crate::proofs::RoomLaws::tests), unfolding(crate::specs::Values::formed, crate::specs::Forms::form_of))]
pub fn facs_address(table: &[u8]) -> Result<u64, Refusal>
    ensures { result ≡ facs_address table.now }
{
    Fadt::new(table)?.formed(36, 132)
}

// The physical address of the DSDT.
#[tactic(auto, using(crate::proofs::RoomLaws::tests), unfolding(crate::specs::Values::formed, crate::specs::Forms::form_of))]
pub fn dsdt_address(table: &[u8]) -> Result<u64, Refusal>
    ensures { result ≡ dsdt_address table.now }
{
    Fadt::new(table)?.formed(40, 140)
}

// The value that resets the machine when it is written to the reset register. It reads as `arm_boot_arch` does, but a byte and not
// two: each width has its reader, and a function for both would take the offset, the size and the reader.
#[tactic(auto, using(crate::proofs::RoomLaws::tests), unfolding(crate::specs::Values::number_at))]
pub fn reset_value(table: &[u8]) -> Result<u64, Refusal>
    ensures { result ≡ reset_value table.now }
{
    let fadt = Fadt::new(table)?;
    fadt.holds(128, 1)?;
    Ok(field::u8_at(fadt.bytes, 128) as u64)
}

// The ARM boot architecture flags.
#[tactic(auto, using(crate::proofs::RoomLaws::tests), unfolding(crate::specs::Values::number_at))]
pub fn arm_boot_arch(table: &[u8]) -> Result<u64, Refusal>
    ensures { result ≡ arm_boot_arch table.now }
{
    let fadt = Fadt::new(table)?;
    fadt.holds(129, 2)?;
    Ok(field::u16_at(fadt.bytes, 129) as u64)
}

// The register blocks, in the order in which the table has them.
#[derive(Clone, Copy)]
pub enum RegisterBlock {
    Pm1aEvent,
    Pm1bEvent,
    Pm1aControl,
    Pm1bControl,
    Pm2Control,
    PmTimer,
    Gpe0,
    Gpe1,
}

// The register block of a number. The numbers are 0 to 7.
impl TryFrom<u32> for RegisterBlock {
    type Error = Refusal;

    ghost try_from_gives = { λ n which. which ≡ nth_block n };

    #[tactic(auto, unfolding(crate::specs::Blocks::nth_block, field::specs::First::less, field::specs::First::when))]
    fn try_from(n: u32) -> Result<RegisterBlock, Refusal> {
        match n {
            0 => Ok(RegisterBlock::Pm1aEvent),
            1 => Ok(RegisterBlock::Pm1bEvent),
            2 => Ok(RegisterBlock::Pm1aControl),
            3 => Ok(RegisterBlock::Pm1bControl),
            4 => Ok(RegisterBlock::Pm2Control),
            5 => Ok(RegisterBlock::PmTimer),
            6 => Ok(RegisterBlock::Gpe0),
            7 => Ok(RegisterBlock::Gpe1),
            _ => Err(Refusal::NotThere),
        }
    }
}

// How a register block is described: where its narrow address, its length byte and its wide form stand, whether it
// answers though its address is zero, and whether it is there only with a length byte of 4. The two rules are bools, as the
// definition `place_of` has them, since each holds of some blocks and neither goes with the other.
#[derive(Clone, Copy)]
struct Place {
    narrow: usize,
    size: usize,
    wide: usize,
    required: bool,
    four: bool,
}

impl RegisterBlock {
    // Where the table describes the block: its narrow address and its length byte stand in the fixed part.
    fn place(self) -> Place
        ensures is { result ≡ place_of self }
        ensures narrow { result.narrow ≤ 112 }
        ensures size { result.size < 116 }
        ensures wide { result.wide < 1000 }
    {
        match self {
            RegisterBlock::Pm1aEvent => Place {
                narrow: 56,
                size: 88,
                wide: 148,
                required: true,
                four: false,
            },
            RegisterBlock::Pm1bEvent => Place {
                narrow: 60,
                size: 88,
                wide: 160,
                required: false,
                four: false,
            },
            RegisterBlock::Pm1aControl => Place {
                narrow: 64,
                size: 89,
                wide: 172,
                required: true,
                four: false,
            },
            RegisterBlock::Pm1bControl => Place {
                narrow: 68,
                size: 89,
                wide: 184,
                required: false,
                four: false,
            },
            RegisterBlock::Pm2Control => Place {
                narrow: 72,
                size: 90,
                wide: 196,
                required: false,
                four: false,
            },
            RegisterBlock::PmTimer => Place {
                narrow: 76,
                size: 91,
                wide: 208,
                required: false,
                four: true,
            },
            RegisterBlock::Gpe0 => Place {
                narrow: 80,
                size: 92,
                wide: 220,
                required: false,
                four: false,
            },
            RegisterBlock::Gpe1 => Place {
                narrow: 84,
                size: 93,
                wide: 232,
                required: false,
                four: false,
            },
        }
    }
}

impl Fadt<'_> {
    // The narrow form of a register block.
    #[tactic(auto, using(crate::proofs::RoomLaws::tests), unfolding(crate::specs::Blocks::narrow_block, crate::specs::Blocks::narrow_address))]
    fn narrow_block(self, place: Place) -> Result<GenericAddress, Refusal>
        requires { (place.narrow ≤ 112) × (place.size < 116) }
        ensures { result ≡ narrow_block self.entry.bytes.now place }
    {
        let address = field::u32_at(self.bytes, place.narrow);
        if !place.required && address == 0 {
            return Err(Refusal::NotThere);
        }
        Ok(GenericAddress {
            address_space: AddressSpace::SystemIo,
            bit_width: 8 * (field::u8_at(self.bytes, place.size) as u32),
            bit_offset: 0,
            access_size: AccessSize::Undefined,
            address: address as u64,
        })
    }

    // A register block by the form that counts. It may be there only with a length of 4.
    #[tactic(auto, using(crate::proofs::RoomLaws::tests), unfolding(crate::specs::Blocks::block, crate::specs::Blocks::formed_block))]
    fn block(self, which: RegisterBlock) -> Result<GenericAddress, Refusal>
        ensures { result ≡ block self.entry.bytes.now (place_of which) }
    {
        let place = which.place();
        if place.four && field::u8_at(self.bytes, place.size) != 4 {
            return Err(Refusal::NotThere);
        }
        match self.form_of(place.wide + 4)? {
            Form::Wide => address::generic_address(self.bytes, place.wide),
            Form::Narrow => self.narrow_block(place),
        }
    }
}

// Where the register block of a number lies. The numbers are 0 to 7. They are what callers in other languages have, and this public
// function tests the slice before the number, so that a slice that is no table is refused as such.
#[tactic(auto, using(crate::proofs::RoomLaws::tests), unfolding(crate::specs::Blocks::nth_register_block))]
pub fn nth_register_block(table: &[u8], n: u32) -> Result<GenericAddress, Refusal>
    ensures { result ≡ nth_register_block table.now n }
{
    let fadt = Fadt::new(table)?;
    fadt.block(RegisterBlock::try_from(n)?)
}

// Where a register block lies.
#[tactic(auto, using(crate::proofs::RoomLaws::tests), unfolding(crate::specs::Blocks::register_block))]
pub fn register_block(table: &[u8], which: RegisterBlock) -> Result<GenericAddress, Refusal>
    ensures { result ≡ register_block table.now which }
{
    Fadt::new(table)?.block(which)
}

impl Fadt<'_> {
    // The register at an offset, where the table holds it.
    #[tactic(auto, using(crate::proofs::RoomLaws::tests), unfolding(crate::specs::Registers::register_at))]
    fn register_at(self, at: usize) -> Result<GenericAddress, Refusal>
        ensures { result ≡ register_at self.entry.bytes.now at }
    {
        self.holds(at, 12)?;
        address::generic_address(self.bytes, at)
    }

    // A sleep register, which a table of revision 0 or 1 does not have.
    #[tactic(auto, using(crate::proofs::RoomLaws::tests), unfolding(crate::specs::Registers::sleep_register))]
    fn sleep_register(self, at: usize) -> Result<GenericAddress, Refusal>
        ensures { result ≡ sleep_register self.entry.bytes.now at }
    {
        if self.is_early() {
            return Err(Refusal::NotThere);
        }
        self.register_at(at)
    }
}

// The register that resets the machine.
#[tactic(auto, using(crate::proofs::RoomLaws::tests), unfolding(crate::specs::Registers::register_at))]
pub fn reset_register(table: &[u8]) -> Result<GenericAddress, Refusal>
    ensures { result ≡ reset_register table.now }
{
    Fadt::new(table)?.register_at(116)
}

// The register that puts the machine to sleep. It and `sleep_status_register` are both public, so they stay two functions: what
// they share is `sleep_register`.
#[tactic(auto, using(crate::proofs::RoomLaws::tests), unfolding(crate::specs::Registers::sleep_register))]
pub fn sleep_control_register(table: &[u8]) -> Result<GenericAddress, Refusal>
    ensures { result ≡ sleep_control_register table.now }
{
    Fadt::new(table)?.sleep_register(244)
}

// The register that tells how the machine woke.
#[tactic(auto, using(crate::proofs::RoomLaws::tests), unfolding(crate::specs::Registers::sleep_register))]
pub fn sleep_status_register(table: &[u8]) -> Result<GenericAddress, Refusal>
    ensures { result ≡ sleep_status_register table.now }
{
    Fadt::new(table)?.sleep_register(256)
}

// The plain fields of the fixed part, under the names of the Rust crate. The last two are flags.
#[derive(Clone, Copy)]
pub struct Fixed {
    pub sci_interrupt: u16,
    pub smi_cmd_port: u32,
    pub acpi_enable: u8,
    pub acpi_disable: u8,
    pub s4bios_req: u8,
    pub pstate_control: u8,
    pub gpe1_base: u8,
    pub c_state_control: u8,
    pub worst_c2_latency: u16,
    pub worst_c3_latency: u16,
    pub flush_size: u16,
    pub flush_stride: u16,
    pub duty_offset: u8,
    pub duty_width: u8,
    pub day_alarm: u8,
    pub month_alarm: u8,
    pub century: u8,
    pub iapc_boot_arch: u16,
    pub flags: u32,
}

// The plain fields of the fixed part, all at once.
#[tactic(auto, using(crate::proofs::RoomLaws::tests), unfolding(crate::specs::Fields::fixed_fields, crate::specs::Fields::fixed_in))]
pub fn fixed_fields(table: &[u8]) -> Result<Fixed, Refusal>
    ensures { result ≡ fixed_fields table.now }
{
    let table = Fadt::new(table)?.bytes;
    Ok(Fixed {
        sci_interrupt: field::u16_at(table, 46),
        smi_cmd_port: field::u32_at(table, 48),
        acpi_enable: field::u8_at(table, 52),
        acpi_disable: field::u8_at(table, 53),
        s4bios_req: field::u8_at(table, 54),
        pstate_control: field::u8_at(table, 55),
        gpe1_base: field::u8_at(table, 94),
        c_state_control: field::u8_at(table, 95),
        worst_c2_latency: field::u16_at(table, 96),
        worst_c3_latency: field::u16_at(table, 98),
        flush_size: field::u16_at(table, 100),
        flush_stride: field::u16_at(table, 102),
        duty_offset: field::u8_at(table, 104),
        duty_width: field::u8_at(table, 105),
        day_alarm: field::u8_at(table, 106),
        month_alarm: field::u8_at(table, 107),
        century: field::u8_at(table, 108),
        iapc_boot_arch: field::u16_at(table, 109),
        flags: field::u32_at(table, 112),
    })
}

// What the machine is for, under the names of the Rust crate.
#[derive(Clone, Copy)]
pub enum PowerProfile {
    Unspecified,
    Desktop,
    Mobile,
    Workstation,
    EnterpriseServer,
    SohoServer,
    AppliancePc,
    PerformanceServer,
    Tablet,
    Reserved(u8),
}

// The profile of a number.
impl From<u8> for PowerProfile {
    ghost from_gives = { λ n profile. profile ≡ profile_of n };

    #[tactic(auto, unfolding(crate::specs::Profiles::profile_of, crate::specs::Profiles::profiles))]
    fn from(n: u8) -> PowerProfile {
        match n {
            0 => PowerProfile::Unspecified,
            1 => PowerProfile::Desktop,
            2 => PowerProfile::Mobile,
            3 => PowerProfile::Workstation,
            4 => PowerProfile::EnterpriseServer,
            5 => PowerProfile::SohoServer,
            6 => PowerProfile::AppliancePc,
            7 => PowerProfile::PerformanceServer,
            8 => PowerProfile::Tablet,
            _ => PowerProfile::Reserved(n),
        }
    }
}

// The number of a profile, as the table has it.
impl From<PowerProfile> for u8 {
    ghost from_gives = { λ profile n. n ≡ profile_number profile };

    fn from(profile: PowerProfile) -> u8 {
        match profile {
            PowerProfile::Unspecified => 0,
            PowerProfile::Desktop => 1,
            PowerProfile::Mobile => 2,
            PowerProfile::Workstation => 3,
            PowerProfile::EnterpriseServer => 4,
            PowerProfile::SohoServer => 5,
            PowerProfile::AppliancePc => 6,
            PowerProfile::PerformanceServer => 7,
            PowerProfile::Tablet => 8,
            PowerProfile::Reserved(n) => n,
        }
    }
}

// The preferred power profile.
#[tactic(auto, using(crate::proofs::RoomLaws::tests), unfolding(crate::specs::Profiles::power_profile))]
pub fn power_profile(table: &[u8]) -> Result<PowerProfile, Refusal>
    ensures { result ≡ power_profile table.now }
{
    let table = Fadt::new(table)?.bytes;
    Ok(PowerProfile::from(field::u8_at(table, 45)))
}

// Whether a bit of a field of flags is set. No field has bits from 64 on.
#[tactic(auto, using(crate::proofs::FlagLaws::flag_past), unfolding(crate::specs::Flags::flag_of))]
pub fn flag(word: u64, bit: u32) -> bool
    ensures { result ≡ flag_of word bit }
{
    bit < 64 && (word >> bit) % 2 == 1
}

// The bits of the fixed feature flags (ACPI 6.5, Table 5.10), under the names of the Rust crate. They are constants and no
// enum, since `flag` takes any bit of any field.
pub const SUPPORTS_EQUIVALENT_TO_WBINVD: u32 = 0;

pub const WBINVD_FLUSHES_ALL_CACHES: u32 = 1;

pub const ALL_PROCS_SUPPORT_C1_POWER_STATE: u32 = 2;

pub const C2_CONFIGURED_FOR_MP_SYSTEM: u32 = 3;

pub const POWER_BUTTON_IS_CONTROL_METHOD: u32 = 4;

pub const SLEEP_BUTTON_IS_CONTROL_METHOD: u32 = 5;

pub const NO_RTC_WAKE_IN_FIXED_REGISTER_SPACE: u32 = 6;

pub const RTC_WAKES_SYSTEM_FROM_S4: u32 = 7;

pub const PM_TIMER_IS_32_BIT: u32 = 8;

pub const SUPPORTS_DOCKING: u32 = 9;

pub const SUPPORTS_SYSTEM_RESET_VIA_FADT: u32 = 10;

pub const CASE_IS_SEALED: u32 = 11;

pub const SYSTEM_IS_HEADLESS: u32 = 12;

pub const USE_INSTR_AFTER_WRITE_TO_SLP_TYPX: u32 = 13;

pub const SUPPORTS_PCIEXP_WAKE_IN_PM1: u32 = 14;

pub const USE_PM_OR_HPET_FOR_MONOTONICALLY_DECREASING_TIMERS: u32 = 15;

pub const RTC_STS_IS_VALID_AFTER_WAKEUP_FROM_S4: u32 = 16;

pub const OSPM_MAY_LEAVE_GPE_WAKE_EVENTS_ARMED_BEFORE_S5: u32 = 17;

pub const LAPICS_MUST_USE_CLUSTER_MODEL_FOR_LOGICAL_MODE: u32 = 18;

pub const LOCAL_XAPICS_MUST_USE_PHYSICAL_DESTINATION_MODE: u32 = 19;

pub const SYSTEM_IS_HW_REDUCED_ACPI: u32 = 20;

pub const NO_BENEFIT_TO_S3: u32 = 21;

// The bits of the IA-PC boot architecture flags (ACPI 6.5, Table 5.11).
pub const LEGACY_DEVICES_ARE_ACCESSIBLE: u32 = 0;

pub const MOTHERBOARD_IMPLEMENTS_8042: u32 = 1;

pub const DONT_PROBE_VGA: u32 = 2;

pub const DONT_ENABLE_MSI: u32 = 3;

pub const DONT_ENABLE_PCIE_ASPM: u32 = 4;

pub const USE_TIME_AND_ALARM_NAMESPACE_FOR_RTC: u32 = 5;

// The bits of the ARM boot architecture flags (ACPI 6.5, Table 5.12).
pub const IMPLEMENTS_PSCI: u32 = 0;

pub const USE_HVC_AS_PSCI_CONDUIT: u32 = 1;
