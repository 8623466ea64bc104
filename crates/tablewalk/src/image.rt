// Questions about the root pointer, the root table and the tables that it lists.
ghost use Rattle.std.specs.Prelude.{ℕ, ◌≡◌, not, length};
ghost use Rattle.memory.specs.Ranges.{right};
ghost use Rattle.rsdp.specs.Asked.{root_pointer_at, search_asked};
ghost use Rattle.sdt.specs.Header.{header_size};
ghost use Rattle.sdt.specs.declared.Wanted.TheVariants.{Signature, Any};
ghost use Rattle.tables.specs.Root.{root_of};
ghost use Rattle.tables.specs.Tables.{entry_of, table_at, nth_table};
ghost use Rattle.field.specs.Then.{and_then};
ghost use Rattle.answers.specs.Aml.{aml_of};
ghost use Rattle.answers.specs.Answer.{answer_of, Reported};
ghost use Rattle.answers.specs.Words.{bit, rsdp_values, one_value, root_values, table_values, aml_values};

use answers::{aml, report};

const SSDT: u32 = 0x5444_5353;

// Whether the list of ranges is right for the slice: 0, or 1.
#[unsafe(no_mangle)]
pub extern "C" fn tablewalk_ranges(image: &[u8], ranges: &[u64]) -> u32
    ensures { result ≡ bit (not (right (length image.now) ranges.now)) }
{
    u32::from(!memory::is_right(image, ranges))
}

// The root pointer at a physical address: revision, length, address of the RSDT, address of the XSDT.
#[unsafe(no_mangle)]
pub extern "C" fn tablewalk_rsdp(image: &[u8], ranges: &[u64], address: u64, out: &mut [u64]) -> u32
    ensures { Reported (answer_of rsdp_values (root_pointer_at image.now ranges.now address)) result out.old out.new }
{
    report(rsdp::root_pointer_at(image, ranges, address), out)
}

// The search for the root pointer where a BIOS leaves it: its address.
#[unsafe(no_mangle)]
pub extern "C" fn tablewalk_search(image: &[u8], ranges: &[u64], out: &mut [u64]) -> u32
    ensures { Reported (answer_of one_value (search_asked image.now ranges.now)) result out.old out.new }
{
    report(rsdp::search_for_on_bios(image, ranges), out)
}

// The table at a physical address with a signature and at least so many bytes: address, offset in the slice, length.
#[unsafe(no_mangle)]
pub extern "C" fn tablewalk_table_at(
    image: &[u8],
    ranges: &[u64],
    address: u64,
    signature: u32,
    least: u32,
    out: &mut [u64],
) -> u32
    ensures { Reported (answer_of table_values (table_at image.now ranges.now address (Signature signature) least)) result out.old out.new }
{
    report(
        tables::table_at(
            image,
            ranges,
            address,
            sdt::Wanted::Signature(signature),
            least,
        ),
        out,
    )
}

// The table at a physical address, whatever its signature: address, offset in the slice, length.
#[unsafe(no_mangle)]
pub extern "C" fn tablewalk_any_table_at(
    image: &[u8],
    ranges: &[u64],
    address: u64,
    out: &mut [u64],
) -> u32
    ensures { Reported (answer_of table_values (table_at image.now ranges.now address Any header_size)) result out.old out.new }
{
    report(
        tables::table_at(image, ranges, address, sdt::Wanted::Any, 36),
        out,
    )
}

// The root table: kind (0 RSDT, 1 XSDT), address, offset in the slice, length, size of an entry, number of entries.
#[unsafe(no_mangle)]
pub extern "C" fn tablewalk_root(image: &[u8], ranges: &[u64], rsdp: u64, out: &mut [u64]) -> u32
    ensures { Reported (answer_of root_values (root_of image.now ranges.now rsdp)) result out.old out.new }
{
    report(tables::root_table(image, ranges, rsdp), out)
}

// The k-th entry of the root table, counted from 0: an address.
#[unsafe(no_mangle)]
pub extern "C" fn tablewalk_entry(
    image: &[u8],
    ranges: &[u64],
    rsdp: u64,
    k: u64,
    out: &mut [u64],
) -> u32
    ensures { Reported (answer_of one_value (entry_of image.now ranges.now rsdp k)) result out.old out.new }
{
    report(tables::root_entry(image, ranges, rsdp, k), out)
}

// The n-th valid table of a signature, counted from 0, with at least so many bytes: address, offset in the slice, length.
#[unsafe(no_mangle)]
pub extern "C" fn tablewalk_find(
    image: &[u8],
    ranges: &[u64],
    rsdp: u64,
    signature: u32,
    least: u32,
    n: u64,
    out: &mut [u64],
) -> u32
    ensures { Reported (answer_of table_values (nth_table image.now ranges.now rsdp (Signature signature) least n)) result out.old out.new }
{
    report(
        tables::nth_table(
            image,
            ranges,
            rsdp,
            sdt::Wanted::Signature(signature),
            least,
            n,
        ),
        out,
    )
}

// The n-th valid table of any signature, counted from 0: address, offset in the slice, length.
#[unsafe(no_mangle)]
pub extern "C" fn tablewalk_header(
    image: &[u8],
    ranges: &[u64],
    rsdp: u64,
    n: u64,
    out: &mut [u64],
) -> u32
    ensures { Reported (answer_of table_values (nth_table image.now ranges.now rsdp Any header_size n)) result out.old out.new }
{
    report(tables::header(image, ranges, rsdp, n), out)
}

// What follows the header of the n-th SSDT, counted from 0: physical address and length.
#[unsafe(no_mangle)]
pub extern "C" fn tablewalk_ssdt(
    image: &[u8],
    ranges: &[u64],
    rsdp: u64,
    n: u64,
    out: &mut [u64],
) -> u32
    ensures { Reported (answer_of aml_values (and_then (nth_table image.now ranges.now rsdp (Signature 0x54445353) header_size n) aml_of)) result out.old out.new }
{
    let ssdt = tables::nth_table(image, ranges, rsdp, sdt::Wanted::Signature(SSDT), 36, n);
    report(ssdt.and_then(aml::behind_the_header), out)
}
