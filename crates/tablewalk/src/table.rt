// Questions about a slice that is a table, for a caller that has found it. A slice that can't be the table is 11.
ghost use Rattle.hpet.specs.Hpet.{hpet_of};
ghost use Rattle.mcfg.specs.Entries.{entry_count_of, entry_of};
ghost use Rattle.mcfg.specs.Physical.{physical_address_of};
ghost use Rattle.fadt.specs.Fields.{fixed_fields};
ghost use Rattle.madt.specs.Fixed.{fixed_of};
ghost use Rattle.madt.specs.Entries.{entry_of as madt_entry_of};
ghost use Rattle.platform.specs.Model.{model_of};
ghost use Rattle.platform.specs.Mailbox.{mailbox_of};
ghost use Rattle.tablewalk.specs.Lists.{FilledNumber};
ghost use Rattle.answers.specs.Answer.{answer_of, Reported};
ghost use Rattle.answers.specs.Words.{hpet_values, one_value, window_values, fixed_values, generic_values, madt_values, madt_entry_values, model_values};
ghost use Rattle.tablewalk.specs.Fadt.{register_of, number_of};
ghost use Rattle.std.specs.Prelude.{◌≡◌};

use address::GenericAddress;
use answers::fixed::profile_number;
use answers::{number, report};
use refusal::Refusal;

// The event timers: block id, revision, comparators, wide counter, legacy capable, PCI vendor, base address, number, minimum tick, page protection.
#[unsafe(no_mangle)]
pub extern "C" fn tablewalk_table_hpet(table: &[u8], out: &mut [u64]) -> u32
    ensures { Reported (answer_of hpet_values (hpet_of table.now)) result out.old out.new }
{
    report(hpet::hpet_info(table), out)
}

// How many windows of PCI configuration space there are.
#[unsafe(no_mangle)]
pub extern "C" fn tablewalk_table_mcfg_count(table: &[u8], out: &mut [u64]) -> u32
    ensures { Reported (answer_of one_value (entry_count_of table.now)) result out.old out.new }
{
    report(mcfg::entry_count(table), out)
}

// The k-th window, counted from 0: base address, segment group, first bus, last bus.
#[unsafe(no_mangle)]
pub extern "C" fn tablewalk_table_mcfg_entry(table: &[u8], k: usize, out: &mut [u64]) -> u32
    ensures { Reported (answer_of window_values (entry_of table.now k)) result out.old out.new }
{
    report(mcfg::entry(table, k), out)
}

// The address of the configuration space of a PCI function.
#[unsafe(no_mangle)]
pub extern "C" fn tablewalk_table_pci_address(
    table: &[u8],
    segment: u16,
    bus: u8,
    device: u8,
    function: u8,
    out: &mut [u64],
) -> u32
    ensures { Reported (answer_of one_value (physical_address_of table.now segment bus device function)) result out.old out.new }
{
    report(
        mcfg::physical_address(table, segment, bus, device, function),
        out,
    )
}

// The plain fields of the FADT, in the table's order.
#[unsafe(no_mangle)]
pub extern "C" fn tablewalk_table_fadt_fixed(table: &[u8], out: &mut [u64]) -> u32
    ensures { Reported (answer_of fixed_values (fixed_fields table.now)) result out.old out.new }
{
    report(fadt::fixed_fields(table), out)
}

// A register of the FADT by its number, which is the caller's: space, bit width, bit offset, access size, address.
#[unsafe(no_mangle)]
pub extern "C" fn tablewalk_table_fadt_register(table: &[u8], which: u32, out: &mut [u64]) -> u32
    ensures { Reported (answer_of generic_values (register_of table.now which)) result out.old out.new }
{
    report(fadt_register(table, which), out)
}

// A single number of the FADT by its number, which is the caller's: 0 FACS address, 1 DSDT address, 2 reset value, 3 ARM boot flags,
// 4 power profile.
#[unsafe(no_mangle)]
pub extern "C" fn tablewalk_table_fadt_number(table: &[u8], which: u32, out: &mut [u64]) -> u32
    ensures { Reported (answer_of one_value (number_of table.now which)) result out.old out.new }
{
    report(fadt_number(table, which), out)
}

// The fixed part of the MADT: address of the local controllers, flags, whether there are old controllers.
#[unsafe(no_mangle)]
pub extern "C" fn tablewalk_table_madt_fixed(table: &[u8], out: &mut [u64]) -> u32
    ensures { Reported (answer_of madt_values (fixed_of table.now)) result out.old out.new }
{
    report(madt::fixed_part(table), out)
}

// The k-th entry of the MADT, counted from 0: number of its kind, offset in the table, length.
#[unsafe(no_mangle)]
pub extern "C" fn tablewalk_table_madt_entry(table: &[u8], k: usize, out: &mut [u64]) -> u32
    ensures { Reported (answer_of madt_entry_values (madt_entry_of table.now k)) result out.old out.new }
{
    report(madt::entry(table, k), out)
}

// The interrupt model: known, address of the local controllers, old controllers, and how many records each of the five lists has.
#[unsafe(no_mangle)]
pub extern "C" fn tablewalk_table_interrupt_model(table: &[u8], out: &mut [u64]) -> u32
    ensures { Reported (answer_of model_values (model_of table.now)) result out.old out.new }
{
    report(platform::interrupt_model(table), out)
}

// The five lists of the interrupt model, records of 3, 3, 3, 2 and 2 words. A refusal leaves all five as they were.
#[unsafe(no_mangle)]
pub extern "C" fn tablewalk_table_interrupt_lists(
    table: &[u8],
    processors: &mut [u32],
    io_apics: &mut [u32],
    interrupt_source_overrides: &mut [u32],
    nmi_sources: &mut [u32],
    local_apic_nmi_lines: &mut [u32],
) -> u32
    ensures { FilledNumber table.now result processors.old processors.new io_apics.old
        io_apics.new interrupt_source_overrides.old interrupt_source_overrides.new
        nmi_sources.old nmi_sources.new local_apic_nmi_lines.old
        local_apic_nmi_lines.new }
{
    number(platform::fill(
        table,
        processors,
        io_apics,
        interrupt_source_overrides,
        nmi_sources,
        local_apic_nmi_lines,
    ))
}

// The address of the mailbox of the first entry of kind 16.
#[unsafe(no_mangle)]
pub extern "C" fn tablewalk_table_mailbox(table: &[u8], out: &mut [u64]) -> u32
    ensures { Reported (answer_of one_value (mailbox_of table.now)) result out.old out.new }
{
    report(platform::mailbox_address(table), out)
}

// The registers by number: 0 to 7 the blocks in the table's order, 8 reset, 9 sleep control, 10 sleep status.
#[tactic(auto, unfolding(crate::specs::Fadt::register_of, field::specs::First::when, field::specs::First::differ))]
pub fn fadt_register(table: &[u8], which: u32) -> Result<GenericAddress, Refusal>
    ensures { result ≡ register_of table.now which }
{
    match which {
        8 => fadt::reset_register(table),
        9 => fadt::sleep_control_register(table),
        10 => fadt::sleep_status_register(table),
        _ => fadt::nth_register_block(table, which),
    }
}

// The single numbers: 0 FACS address, 1 DSDT address, 2 reset value, 3 ARM boot flags, 4 power profile. No other number names
// one: it is not there, and a slice that is no FADT is refused as every question about one refuses it.
#[tactic(auto, unfolding(crate::specs::Fadt::number_of, crate::specs::Fadt::profile_of, crate::specs::Fadt::no_number, field::specs::First::when, field::specs::First::differ))]
pub fn fadt_number(table: &[u8], which: u32) -> Result<u64, Refusal>
    ensures { result ≡ number_of table.now which }
{
    match which {
        0 => fadt::facs_address(table),
        1 => fadt::dsdt_address(table),
        2 => fadt::reset_value(table),
        3 => fadt::arm_boot_arch(table),
        4 => Ok(profile_number(fadt::power_profile(table)?)),
        _ => {
            fadt::power_profile(table)?;
            Err(Refusal::NotThere)
        }
    }
}
