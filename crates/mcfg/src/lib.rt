// The MCFG table: where the configuration space of PCI functions lies in memory (PCI Firmware Specification 3.x, section 4.1.2).
#![tactic(auto)]

ghost use Rattle.std.specs.Prelude.{◌≡◌, ◌+◌, ◌*◌, ◌≤◌, length, map, Ok, Err, IfOk, IfErr, IfSome};
ghost use Rattle.mcfg.specs.Entries.{length_checked, entry_at, entries, entry_count_of, entry_of};
ghost use Rattle.mcfg.specs.Physical.{includes, window_of, address_in, physical_address_of};

use refusal::Refusal;

// An entry, under the names of the Rust crate: a window for the buses from the first to the last of a segment group.
#[derive(Clone, Copy)]
pub struct McfgEntry {
    pub base_address: u64,
    pub pci_segment_group: u16,
    pub bus_number_start: u8,
    pub bus_number_end: u8,
}

impl McfgEntry {
    // Whether the entry has the segment group, and the bus among its buses. Windows most often differ in the first, which is
    // tested by itself: of the three in one condition the compiler tests another first.
    fn includes(self, segment: u16, bus: u8) -> bool
        ensures { result ≡ includes segment bus self }
    {
        if self.pci_segment_group != segment {
            return false;
        }
        self.bus_number_start <= bus && bus <= self.bus_number_end
    }

    // The address of a function in the window, whose entry includes the bus.
    #[tactic(auto, unfolding(crate::specs::Physical::address_in, field::specs::First::less, field::specs::First::when))]
    fn address_in(self, bus: u8, device: u8, function: u8) -> Result<u64, Refusal>
        requires { (self.bus_number_start ≤ bus) × (device ≤ 31) × (function ≤ 7) }
        ensures { result ≡ address_in self bus device function }
    {
        let before = u64::from(bus - self.bus_number_start) * 0x10_0000
            + u64::from(device) * 0x8000
            + u64::from(function) * 0x1000;
        self.base_address
            .checked_add(before)
            .ok_or(Refusal::NotThere)
    }
}

// The entries behind the fixed part, 16 bytes each; what is left of a cut-off one is none. Refuses a slice that is too short for
// an MCFG or not as long as the table states.
fn structures(table: &[u8]) -> Result<&[[u8; 16]], Refusal>
    ensures long { IfOk result (λ _. length_checked table.now ≡ Ok tt) }
    ensures short { IfErr result (λ refusal. length_checked table.now ≡ Err refusal) }
    ensures entries { IfOk result (λ list. map (λ bytes. entry_at bytes 0) list.now ≡ entries table.now) }
    ensures inside { IfOk result (λ list. 44 + 16 * length list.now ≤ length table.now) }
{
    sdt::check_whole(table, 44)?;
    let (structures, _) = table[44..].as_chunks();
    Ok(structures)
}

// The entry that 16 bytes hold.
#[tactic(auto, unfolding(crate::specs::Entries::entry_at))]
fn read(bytes: &[u8; 16]) -> McfgEntry
    ensures { result ≡ entry_at bytes.now 0 }
{
    McfgEntry {
        base_address: field::u64_at(bytes, 0),
        pci_segment_group: field::u16_at(bytes, 8),
        bus_number_start: field::u8_at(bytes, 10),
        bus_number_end: field::u8_at(bytes, 11),
    }
}

// How many entries there are.
pub fn entry_count(table: &[u8]) -> Result<usize, Refusal>
    ensures value { result ≡ entry_count_of table.now }
    ensures inside { IfOk result (λ n. 44 + 16 * n ≤ length table.now) }
{
    Ok(structures(table)?.len())
}

// The k-th entry, counted from 0.
pub fn entry(table: &[u8], k: usize) -> Result<McfgEntry, Refusal>
    ensures { result ≡ entry_of table.now k }
{
    let bytes = structures(table)?.get(k).ok_or(Refusal::NotThere)?;
    Ok(read(bytes))
}

// The first entry that includes the bus.
fn first_window(structures: &[[u8; 16]], segment: u16, bus: u8) -> Option<McfgEntry>
    ensures first { result ≡ window_of segment bus (map (λ bytes. entry_at bytes 0) structures.now) }
    ensures from { IfSome result (λ e. e.bus_number_start ≤ bus) }
{
    structures
        .iter()
        .map(|bytes| read(bytes))
        .find(|e| e.includes(segment, bus))
}

// The physical address of the configuration space of a function. Four numbers and no struct, as callers ask.
#[tactic(auto, unfolding(crate::specs::Physical::physical_address_of, field::specs::First::less, field::specs::First::when))]
pub fn physical_address(
    table: &[u8],
    segment: u16,
    bus: u8,
    device: u8,
    function: u8,
) -> Result<u64, Refusal>
    ensures { result ≡ physical_address_of table.now segment bus device function }
{
    let structures = structures(table)?;
    if 31 < device || 7 < function {
        return Err(Refusal::NotThere);
    }
    let window = first_window(structures, segment, bus).ok_or(Refusal::NotThere)?;
    window.address_in(bus, device, function)
}
