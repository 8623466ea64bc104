// The HPET table: the event timer block (IA-PC HPET Specification 1.0a, section 3.2.4).
#![tactic(auto)]

ghost use Rattle.std.specs.Prelude.{◌≡◌, ◌≤◌, length};
ghost use Rattle.hpet.specs.Hpet.{hpet_of, info_of, protection_of, protection_number};

use address::AddressSpace;
use refusal::Refusal;

// Which memory behind the timers' registers may be accessed: nothing is promised, the rest of 4 KB, the rest of 64 KB, or what a
// reserved number says.
#[derive(Clone, Copy)]
pub enum PageProtection {
    None = 0,
    Protected4K = 1,
    Protected64K = 2,
    Other = 3,
}

// What a number in the field of page protection means.
impl From<u8> for PageProtection {
    ghost from_gives = { λ n protection. protection ≡ protection_of n };

    #[tactic(auto, unfolding(crate::specs::Hpet::protection_of))]
    fn from(n: u8) -> PageProtection {
        match n {
            0 => PageProtection::None,
            1 => PageProtection::Protected4K,
            2 => PageProtection::Protected64K,
            _ => PageProtection::Other,
        }
    }
}

// The number that callers are handed, which is the field's for the three that it names.
impl From<PageProtection> for u8 {
    ghost from_gives = { λ protection n. n ≡ protection_number protection };

    fn from(protection: PageProtection) -> u8 {
        protection as u8
    }
}

// The names are those of the Rust crate, where some of these are methods that take the block id apart. The bools
// are bits of it.
#[derive(Clone, Copy)]
pub struct HpetInfo {
    pub event_timer_block_id: u32,
    pub hardware_rev: u8,
    pub num_comparators: u8,
    pub main_counter_is_64bits: bool,
    pub legacy_irq_capable: bool,
    pub pci_vendor_id: u16,
    pub base_address: u64,
    pub hpet_number: u8,
    pub clock_tick_unit: u16,
    pub page_protection: PageProtection,
}

// The fields of a table that is long enough.
#[tactic(auto, unfolding(crate::specs::Hpet::info_of))]
fn info(table: &[u8]) -> HpetInfo
    requires { 56 ≤ length table.now }
    ensures { result ≡ info_of table.now }
{
    let id = field::u32_at(table, 36);
    HpetInfo {
        event_timer_block_id: id,
        hardware_rev: (id % 256) as u8,
        num_comparators: (id / 256 % 32) as u8 + 1,
        main_counter_is_64bits: id / 8192 % 2 == 1,
        legacy_irq_capable: id / 32768 % 2 == 1,
        pci_vendor_id: (id / 65536) as u16,
        base_address: field::u64_at(table, 44),
        hpet_number: field::u8_at(table, 52),
        clock_tick_unit: field::u16_at(table, 53),
        page_protection: PageProtection::from(field::u8_at(table, 55) % 16),
    }
}

// What an HPET table says, or why it is refused.
#[tactic(auto, unfolding(crate::specs::Hpet::hpet_of, sdt::specs::Valid::whole_checked, field::specs::First::checked, field::specs::First::less, field::specs::First::differ, field::specs::First::when))]
pub fn hpet_info(table: &[u8]) -> Result<HpetInfo, Refusal>
    ensures { result ≡ hpet_of table.now }
{
    sdt::check_whole(table, 56)?;
    if field::u8_at(table, 40) != u8::from(AddressSpace::SystemMemory) {
        return Err(Refusal::UnknownSpaceOrSize);
    }
    Ok(info(table))
}
