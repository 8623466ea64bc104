// The questions about a table, asked of the proved functions, and the values of their answers as the stored file has them.
use crate::lists;
use address::GenericAddress;
use cases::case::{Case, Outcome, low, number};
use cases::replay::QuestionsInRooms;
use cases::tally::Count;
use hpet::HpetInfo;
use madt::{Madt, MadtEntry};
use mcfg::McfgEntry;
use platform::Model;
use refusal::Refusal;
use std::io;

// The questions, with the rooms of the tables that the one for the lists lends.
#[derive(Drop)]
pub struct TableQuestions {
    rooms: lists::Rooms,
}

impl TableQuestions {
    pub fn new() -> Self {
        TableQuestions {
            rooms: lists::Rooms::new(),
        }
    }
}

impl QuestionsInRooms for TableQuestions {
    const LABELS: &'static [(u32, &'static str)] = &[
        (20, "MCFG, number of entries"),
        (21, "MCFG, entry"),
        (22, "MCFG, configuration space of a function"),
        (30, "HPET"),
        (40, "FADT, register"),
        (41, "FADT, firmware control"),
        (42, "FADT, DSDT"),
        (43, "FADT, plain field"),
        (44, "FADT, flag"),
        (50, "MADT, fixed part"),
        (51, "MADT, entry"),
        (52, "interrupt model"),
        (53, "lists of the interrupt model"),
        (54, "mailbox"),
    ];

    // Three writes: what stands behind a failing one is not written, and what stands before it is.
    fn print(rt: &impl Print, id: u32, label: &str, count: Count) -> io::Result<()> {
        print!(rt; "question {id}, ")?;
        print!(rt; "{label}")?;
        println!(rt; ": {count}")
    }

    fn ask(&mut self, case: &Case) -> Option<Outcome> {
        match (case.id, case.arguments) {
            (53, [p, i, o, n, l]) => {
                let lengths = [number(p), number(i), number(o), number(n), number(l)];
                lists::ask(&mut self.rooms, case, lengths)
            }
            _ => ask(case),
        }
    }
}

// Asks the question that has this number and so many arguments, other than the one for the lists. tests/reference/reading.py has
// the same numbers, which stay numbers here: an enum of the questions would name each call a second time and say nothing more.
fn ask(case: &Case) -> Option<Outcome> {
    let table = case.image;
    let stored = &case.stored;
    let outcome = match (case.id, case.arguments) {
        (20, []) => stored.outcome(mcfg::entry_count(table).map(|count| [count as u64])),
        (21, [k]) => stored.outcome(mcfg::entry(table, number(k) as usize).map(of_window)),
        (22, [segment, bus, device, function]) => {
            let answer = mcfg::physical_address(
                table,
                low_half(number(segment)),
                low_byte(number(bus)),
                low_byte(number(device)),
                low_byte(number(function)),
            );
            stored.outcome(answer.map(|address| [address]))
        }
        (30, []) => stored.outcome(hpet::hpet_info(table).map(of_timer)),
        (40, [which]) => stored.outcome(register(table, number(which)).map(of_generic)),
        (41, []) => stored.outcome(fadt::facs_address(table).map(|address| [address])),
        (42, []) => stored.outcome(fadt::dsdt_address(table).map(|address| [address])),
        // The second argument, how many bytes the field has, follows from the first.
        (43, [offset, _]) => stored.outcome(fadt_field(table, number(offset)).map(|value| [value])),
        (44, [offset, bit]) => {
            let word = fadt_field(table, number(offset));
            stored.outcome(word.map(|word| [u64::from(fadt::flag(word, low(number(bit))))]))
        }
        (50, []) => stored.outcome(madt::fixed_part(table).map(of_fixed)),
        (51, [k]) => stored.outcome(madt::entry(table, number(k) as usize).map(of_entry)),
        (52, []) => stored.outcome(platform::interrupt_model(table).map(of_model)),
        (54, []) => stored.outcome(platform::mailbox_address(table).map(|address| [address])),
        _ => return None,
    };
    Some(outcome)
}

// A register by the number that the file has: the blocks are 0 to 7, 8 is the reset register, 9 sleep control and 10 sleep status.
// `fadt_register` of tablewalk is in no library (docs/DECISIONS.md, 21).
fn register(table: &[u8], which: u64) -> Result<GenericAddress, Refusal> {
    match which {
        8 => fadt::reset_register(table),
        9 => fadt::sleep_control_register(table),
        10 => fadt::sleep_status_register(table),
        _ => fadt::nth_register_block(table, low(which)),
    }
}

// A plain field by the offset that the file has, at which it stands in the table.
fn fadt_field(table: &[u8], offset: u64) -> Result<u64, Refusal> {
    match offset {
        45 => fadt::power_profile(table).map(|profile| u64::from(u8::from(profile))),
        128 => fadt::reset_value(table),
        129 => fadt::arm_boot_arch(table),
        _ => fadt::fixed_fields(table).map(|f| field_at(f, offset)),
    }
}

fn field_at(f: fadt::Fixed, offset: u64) -> u64 {
    match offset {
        46 => u64::from(f.sci_interrupt),
        48 => u64::from(f.smi_cmd_port),
        52 => u64::from(f.acpi_enable),
        53 => u64::from(f.acpi_disable),
        54 => u64::from(f.s4bios_req),
        55 => u64::from(f.pstate_control),
        94 => u64::from(f.gpe1_base),
        95 => u64::from(f.c_state_control),
        96 => u64::from(f.worst_c2_latency),
        98 => u64::from(f.worst_c3_latency),
        100 => u64::from(f.flush_size),
        102 => u64::from(f.flush_stride),
        104 => u64::from(f.duty_offset),
        105 => u64::from(f.duty_width),
        106 => u64::from(f.day_alarm),
        107 => u64::from(f.month_alarm),
        108 => u64::from(f.century),
        109 => u64::from(f.iapc_boot_arch),
        _ => u64::from(f.flags),
    }
}

// The low bytes of an argument, as `low` of `cases` takes four. A trait for the widths would be longer than the functions are.
fn low_half(x: u64) -> u16 {
    (x % 0x1_0000) as u16
}

fn low_byte(x: u64) -> u8 {
    (x % 0x100) as u8
}

// The values of the answers, spelled apart from `answers`: the file has fewer words of an HPET, and zeros for an unknown model.

fn of_window(e: McfgEntry) -> [u64; 4] {
    [
        e.base_address,
        u64::from(e.pci_segment_group),
        u64::from(e.bus_number_start),
        u64::from(e.bus_number_end),
    ]
}

fn of_timer(h: HpetInfo) -> [u64; 9] {
    [
        u64::from(h.hardware_rev),
        u64::from(h.num_comparators),
        u64::from(h.main_counter_is_64bits),
        u64::from(h.legacy_irq_capable),
        u64::from(h.pci_vendor_id),
        h.base_address,
        u64::from(h.hpet_number),
        u64::from(h.clock_tick_unit),
        u64::from(u8::from(h.page_protection)),
    ]
}

fn of_generic(a: GenericAddress) -> [u64; 5] {
    [
        u64::from(u8::from(a.address_space)),
        u64::from(a.bit_width),
        u64::from(a.bit_offset),
        u64::from(u8::from(a.access_size)),
        a.address,
    ]
}

fn of_fixed(m: Madt) -> [u64; 3] {
    [
        u64::from(m.local_apic_address),
        u64::from(m.flags),
        u64::from(m.supports_8259),
    ]
}

fn of_entry(e: MadtEntry) -> [u64; 3] {
    [u64::from(e.number), e.at as u64, e.len as u64]
}

// An unknown model has nothing to say. The last numbers are how many records each list has.
fn of_model(m: Model) -> [u64; 8] {
    if !m.known {
        return [0; 8];
    }
    [
        1,
        m.local_apic_address,
        u64::from(m.also_has_legacy_pics),
        m.processors as u64,
        m.io_apics as u64,
        m.interrupt_source_overrides as u64,
        m.nmi_sources as u64,
        m.local_apic_nmi_lines as u64,
    ]
}
