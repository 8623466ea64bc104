// Questions about a table that is found first, from the address of the root pointer.
ghost use Rattle.std.specs.Prelude.{◌≡◌, ℕ, List, Ok, Err, MatchResult};
ghost use Rattle.hpet.specs.Hpet.{hpet_of};
ghost use Rattle.mcfg.specs.Entries.{entry_count_of, entry_of};
ghost use Rattle.mcfg.specs.Physical.{physical_address_of};
ghost use Rattle.fadt.specs.Fields.{fixed_fields};
ghost use Rattle.madt.specs.Fixed.{fixed_of};
ghost use Rattle.madt.specs.Entries.{entry_of as madt_entry_of};
ghost use Rattle.fadt.specs.Values.{dsdt_address};
ghost use Rattle.platform.specs.Model.{model_of};
ghost use Rattle.platform.specs.Mailbox.{mailbox_of};
ghost use Rattle.tablewalk.specs.Lists.{ListsAsked};
ghost use Rattle.sdt.specs.declared.Wanted.TheVariants.{Signature};
ghost use Rattle.tables.specs.Tables.{nth_table};
ghost use Rattle.answers.specs.Answer.{answer_of, Reported};
ghost use Rattle.answers.specs.Words.{hpet_values, one_value, window_values, fixed_values, generic_values, aml_values, madt_values, madt_entry_values, model_values};
ghost use Rattle.tablewalk.specs.Asked.{dsdt_of, asked_of, whole_found};
ghost use Rattle.tablewalk.specs.Fadt.{register_of, number_of};

use crate::table;
use answers::aml::{self, Aml};
use answers::report;
use refusal::Refusal;
use sdt::Wanted;

const HPET: u32 = 0x54455048;

const MCFG: u32 = 0x4746434d;

pub const FACP: u32 = 0x50434146;

pub const APIC: u32 = 0x43495041;

const DSDT: u32 = 0x54445344;

// The bytes of the first valid table that has a signature and at least so many bytes. Its parameters are those of the questions from
// outside.
pub fn first_table<'a>(
    image: &'a [u8],
    ranges: &[u64],
    rsdp: u64,
    signature: u32,
    least: u32,
) -> Result<&'a [u8], Refusal>
    ensures { MatchResult result
        (λ table. whole_found image.now ranges.now (nth_table image.now ranges.now rsdp (Signature signature) least 0) ≡ Ok table.now)
        (λ refusal. whole_found image.now ranges.now (nth_table image.now ranges.now rsdp (Signature signature) least 0) ≡ Err refusal) }
{
    let table = tables::find_table(image, ranges, rsdp, signature, least)?;
    Ok(tables::whole(image, ranges, table.address))
}

// As `tablewalk_table_hpet`, of the first valid table of its signature.
#[unsafe(no_mangle)]
pub extern "C" fn tablewalk_hpet(image: &[u8], ranges: &[u64], rsdp: u64, out: &mut [u64]) -> u32
    ensures { Reported (answer_of hpet_values (asked_of image.now ranges.now hpet_of (nth_table image.now ranges.now rsdp (Signature 0x54455048) 56 0))) result out.old out.new }
{
    let found = first_table(image, ranges, rsdp, HPET, 56);
    report(found.and_then(hpet::hpet_info), out)
}

// As `tablewalk_table_mcfg_count`, of the first valid table of its signature.
#[unsafe(no_mangle)]
pub extern "C" fn tablewalk_mcfg_count(
    image: &[u8],
    ranges: &[u64],
    rsdp: u64,
    out: &mut [u64],
) -> u32
    ensures { Reported (answer_of one_value (asked_of image.now ranges.now entry_count_of (nth_table image.now ranges.now rsdp (Signature 0x4746434d) 44 0))) result out.old out.new }
{
    let found = first_table(image, ranges, rsdp, MCFG, 44);
    report(found.and_then(mcfg::entry_count), out)
}

// As `tablewalk_table_mcfg_entry`, of the first valid table of its signature.
#[unsafe(no_mangle)]
pub extern "C" fn tablewalk_mcfg_entry(
    image: &[u8],
    ranges: &[u64],
    rsdp: u64,
    k: usize,
    out: &mut [u64],
) -> u32
    ensures { Reported (answer_of window_values (asked_of image.now ranges.now (λ (t : List ℕ). entry_of t k) (nth_table image.now ranges.now rsdp (Signature 0x4746434d) 44 0))) result out.old out.new }
{
    let found = first_table(image, ranges, rsdp, MCFG, 44);
    report(found.and_then(|table| mcfg::entry(table, k)), out)
}

// As `tablewalk_table_pci_address`, of the first valid table of its signature.
#[unsafe(no_mangle)]
pub extern "C" fn tablewalk_pci_address(
    image: &[u8],
    ranges: &[u64],
    rsdp: u64,
    segment: u16,
    bus: u8,
    device: u8,
    function: u8,
    out: &mut [u64],
) -> u32
    ensures { Reported (answer_of one_value (asked_of image.now ranges.now (λ (t : List ℕ). physical_address_of t segment bus device function) (nth_table image.now ranges.now rsdp (Signature 0x4746434d) 44 0))) result out.old out.new }
{
    let found = first_table(image, ranges, rsdp, MCFG, 44);
    report(
        found.and_then(|table| mcfg::physical_address(table, segment, bus, device, function)),
        out,
    )
}

// As `tablewalk_table_fadt_fixed`, of the first valid table of its signature.
#[unsafe(no_mangle)]
pub extern "C" fn tablewalk_fadt_fixed(
    image: &[u8],
    ranges: &[u64],
    rsdp: u64,
    out: &mut [u64],
) -> u32
    ensures { Reported (answer_of fixed_values (asked_of image.now ranges.now fixed_fields (nth_table image.now ranges.now rsdp (Signature 0x50434146) 116 0))) result out.old out.new }
{
    let found = first_table(image, ranges, rsdp, FACP, 116);
    report(found.and_then(fadt::fixed_fields), out)
}

// As `tablewalk_table_fadt_register`, of the first valid table of its signature.
#[unsafe(no_mangle)]
pub extern "C" fn tablewalk_fadt_register(
    image: &[u8],
    ranges: &[u64],
    rsdp: u64,
    which: u32,
    out: &mut [u64],
) -> u32
    ensures { Reported (answer_of generic_values (asked_of image.now ranges.now (λ (t : List ℕ). register_of t which) (nth_table image.now ranges.now rsdp (Signature 0x50434146) 116 0))) result out.old out.new }
{
    let found = first_table(image, ranges, rsdp, FACP, 116);
    report(
        found.and_then(|table| table::fadt_register(table, which)),
        out,
    )
}

// As `tablewalk_table_fadt_number`, of the first valid table of its signature.
#[unsafe(no_mangle)]
pub extern "C" fn tablewalk_fadt_number(
    image: &[u8],
    ranges: &[u64],
    rsdp: u64,
    which: u32,
    out: &mut [u64],
) -> u32
    ensures { Reported (answer_of one_value (asked_of image.now ranges.now (λ (t : List ℕ). number_of t which) (nth_table image.now ranges.now rsdp (Signature 0x50434146) 116 0))) result out.old out.new }
{
    let found = first_table(image, ranges, rsdp, FACP, 116);
    report(
        found.and_then(|table| table::fadt_number(table, which)),
        out,
    )
}

// As `tablewalk_table_madt_fixed`, of the first valid table of its signature.
#[unsafe(no_mangle)]
pub extern "C" fn tablewalk_madt_fixed(
    image: &[u8],
    ranges: &[u64],
    rsdp: u64,
    out: &mut [u64],
) -> u32
    ensures { Reported (answer_of madt_values (asked_of image.now ranges.now fixed_of (nth_table image.now ranges.now rsdp (Signature 0x43495041) 44 0))) result out.old out.new }
{
    let found = first_table(image, ranges, rsdp, APIC, 44);
    report(found.and_then(madt::fixed_part), out)
}

// As `tablewalk_table_madt_entry`, of the first valid table of its signature.
#[unsafe(no_mangle)]
pub extern "C" fn tablewalk_madt_entry(
    image: &[u8],
    ranges: &[u64],
    rsdp: u64,
    k: usize,
    out: &mut [u64],
) -> u32
    ensures { Reported (answer_of madt_entry_values (asked_of image.now ranges.now (λ (t : List ℕ). madt_entry_of t k) (nth_table image.now ranges.now rsdp (Signature 0x43495041) 44 0))) result out.old out.new }
{
    let found = first_table(image, ranges, rsdp, APIC, 44);
    report(found.and_then(|table| madt::entry(table, k)), out)
}

// As `tablewalk_table_interrupt_model`, of the first valid table of its signature.
#[unsafe(no_mangle)]
pub extern "C" fn tablewalk_interrupt_model(
    image: &[u8],
    ranges: &[u64],
    rsdp: u64,
    out: &mut [u64],
) -> u32
    ensures { Reported (answer_of model_values (asked_of image.now ranges.now model_of (nth_table image.now ranges.now rsdp (Signature 0x43495041) 44 0))) result out.old out.new }
{
    let found = first_table(image, ranges, rsdp, APIC, 44);
    report(found.and_then(platform::interrupt_model), out)
}

// As `tablewalk_table_mailbox`, of the first valid table of its signature.
#[unsafe(no_mangle)]
pub extern "C" fn tablewalk_mailbox(image: &[u8], ranges: &[u64], rsdp: u64, out: &mut [u64]) -> u32
    ensures { Reported (answer_of one_value (asked_of image.now ranges.now mailbox_of (nth_table image.now ranges.now rsdp (Signature 0x43495041) 44 0))) result out.old out.new }
{
    let found = first_table(image, ranges, rsdp, APIC, 44);
    report(found.and_then(platform::mailbox_address), out)
}

// As `tablewalk_table_interrupt_lists`, of the first valid MADT.
#[unsafe(no_mangle)]
pub extern "C" fn tablewalk_interrupt_lists(
    image: &[u8],
    ranges: &[u64],
    rsdp: u64,
    processors: &mut [u32],
    io_apics: &mut [u32],
    interrupt_source_overrides: &mut [u32],
    nmi_sources: &mut [u32],
    local_apic_nmi_lines: &mut [u32],
) -> u32
    ensures { ListsAsked image.now ranges.now (nth_table image.now ranges.now rsdp (Signature 0x43495041) 44 0) result
        processors.old processors.new io_apics.old io_apics.new
        interrupt_source_overrides.old interrupt_source_overrides.new nmi_sources.old
        nmi_sources.new local_apic_nmi_lines.old local_apic_nmi_lines.new }
{
    match first_table(image, ranges, rsdp, APIC, 44) {
        Ok(table) => table::tablewalk_table_interrupt_lists(
            table,
            processors,
            io_apics,
            interrupt_source_overrides,
            nmi_sources,
            local_apic_nmi_lines,
        ),
        Err(refusal) => refusal.into(),
    }
}

// What follows the header of the DSDT that the FADT leads to.
#[tactic(auto, unfolding(crate::specs::Asked::dsdt_of))]
fn dsdt(image: &[u8], ranges: &[u64], rsdp: u64) -> Result<Aml, Refusal>
    ensures { result ≡ asked_of image.now ranges.now (λ (t : List ℕ). dsdt_of image.now ranges.now (dsdt_address t)) (nth_table image.now ranges.now rsdp (Signature 0x50434146) 116 0) }
{
    let fadt = first_table(image, ranges, rsdp, FACP, 116)?;
    let address = fadt::dsdt_address(fadt)?;
    let wanted = Wanted::Signature(DSDT);
    aml::behind_the_header(tables::table_at(image, ranges, address, wanted, 36)?)
}

// What follows the header of the DSDT: physical address and length.
#[unsafe(no_mangle)]
pub extern "C" fn tablewalk_dsdt(image: &[u8], ranges: &[u64], rsdp: u64, out: &mut [u64]) -> u32
    ensures { Reported (answer_of aml_values (asked_of image.now ranges.now (λ (t : List ℕ). dsdt_of image.now ranges.now (dsdt_address t)) (nth_table image.now ranges.now rsdp (Signature 0x50434146) 116 0))) result out.old out.new }
{
    report(dsdt(image, ranges, rsdp), out)
}
