// The header that all tables begin with: whether the table at the start of a view is valid, or what refuses it.
// A view is the slice from the table's start to the end of what is mapped there.
#![tactic(auto)]

ghost use Rattle.std.specs.Prelude.{◌≡◌, ◌≤◌, ◌<◌, ◌%◌, max, ◌⊎◌, [], ◌∷◌, length, sum, MatchOption, OnOk};
ghost use Rattle.refusal.specs.declared.Refusal.TheVariants.{WrongChecksum, TooShort};
ghost use Rattle.field.specs.First.{less, differ, ◌gives◌, checked};
ghost use Rattle.sdt.specs.Header.{header_size, length_of, whole_of};
ghost use Rattle.sdt.specs.Valid.{wrong_signature, id_reasons, header_reasons, whole_checked, table_checked, root_checked};

use refusal::Refusal;

pub const HEADER_SIZE: usize = 36;

// The signature that whoever asks wants, or any. It is no Option: at None a reader would think that nothing is wanted.
#[derive(Clone, Copy)]
pub enum Wanted {
    Signature(u32),
    Any,
}

#[tactic(auto, unfolding(crate::specs::Valid::wrong_signature, field::specs::First::differ, field::specs::Part::part))]
#[inline(always)]
fn has_wrong_signature(view: &[u8], wanted: Wanted) -> bool
    requires { header_size ≤ length view.now }
    ensures { result ≡ wrong_signature wanted view.now }
{
    match wanted {
        Wanted::Signature(n) => field::u32_at(view, 0) != n,
        Wanted::Any => !field::is_text(&view[0..4]),
    }
}

// Whether the ids of the table's maker are text. It stays a call, so that a search that passes over a table by its signature doesn't
// carry these tests along.
#[tactic(auto, unfolding(field::specs::First::checked, field::specs::First::when, field::specs::Part::part))]
#[inline(never)]
fn check_ids(view: &[u8]) -> Result<(), Refusal>
    requires { header_size ≤ length view.now }
    ensures { result ≡ checked (id_reasons view.now) }
{
    if !field::is_text(&view[10..16]) {
        return Err(Refusal::WrongOemId);
    }
    if !field::is_text(&view[16..24]) {
        return Err(Refusal::WrongTableId);
    }
    Ok(())
}

// The header's own faults. A search passes over most tables by their signature, so that test is made where the table is looked at,
// and the rest is called.
#[tactic(auto, unfolding(crate::specs::Valid::header_reasons, field::specs::First::checked, field::specs::First::when, field::specs::Part::part))]
#[inline(always)]
fn check_header(view: &[u8], wanted: Wanted) -> Result<(), Refusal>
    requires { header_size ≤ length view.now }
    ensures { result ≡ checked (header_reasons wanted view.now) }
{
    if has_wrong_signature(view, wanted) {
        return Err(Refusal::WrongSignature);
    }
    check_ids(view)
}

// Whether the bytes of a whole table sum to 0.
#[tactic(auto, unfolding(field::specs::First::checked, field::specs::First::when, field::specs::First::differ))]
fn check_sum(table: &[u8]) -> Result<(), Refusal>
    ensures { result ≡ checked ((differ (sum table.now % 256) 0 gives WrongChecksum) ∷ []) }
{
    if field::sum(table) != 0 {
        return Err(Refusal::WrongChecksum);
    }
    Ok(())
}

// Whether the stated length is at least the header's size and what whoever asks needs.
#[tactic(auto, unfolding(field::specs::First::checked, field::specs::First::when, field::specs::First::less))]
fn check_length(len: u32, least: u32) -> Result<(), Refusal>
    ensures { result ≡ checked ((less len (max header_size least) gives TooShort) ∷ []) }
{
    if len < least.max(HEADER_SIZE as u32) {
        return Err(Refusal::TooShort);
    }
    Ok(())
}

// The table at the start of the view, for whoever wants this signature and at least so many bytes: valid, or why not.
#[inline(always)]
pub fn check_table(view: &[u8], wanted: Wanted, least: u32) -> Result<(), Refusal>
    ensures { result ≡ table_checked wanted least view.now }
{
    if view.len() < HEADER_SIZE {
        return Err(Refusal::NoValidTable);
    }
    check_header(view, wanted)?;
    let stated = stated_length(view);
    match view.get(..stated as usize) {
        Some(table) => {
            check_sum(table)?;
            check_length(stated, least)
        }
        None => {
            check_length(stated, least)?;
            Err(Refusal::NoValidTable)
        }
    }
}

// The bytes of the table at the start of the view, where it is mapped over its whole length.
fn mapped_table(view: &[u8]) -> Option<&[u8]>
    ensures { MatchOption result
        ((length view.now < header_size) ⊎ (length view.now < length_of view.now))
        (λ table. (header_size ≤ length view.now) × (length_of view.now ≤ length view.now) × (table.now ≡ whole_of view.now)) }
{
    if view.len() < HEADER_SIZE {
        return None;
    }
    view.get(..stated_length(view) as usize)
}

// The root table at the start of the view: valid, or why not. It has to be mapped over its whole length first of all.
pub fn check_root(view: &[u8], wanted: Wanted) -> Result<(), Refusal>
    ensures { result ≡ root_checked wanted view.now }
{
    let Some(table) = mapped_table(view) else {
        return Err(Refusal::RootNotMapped);
    };
    check_header(view, wanted)?;
    check_sum(table)?;
    check_length(stated_length(view), HEADER_SIZE as u32)
}

// The length that the table states.
pub fn stated_length(view: &[u8]) -> u32
    requires { header_size ≤ length view.now }
    ensures { result ≡ length_of view.now }
{
    field::u32_at(view, 4)
}

// Whether a slice is a table of at least so many bytes: it has a header, and is as long as it states.
#[tactic(auto, unfolding(crate::specs::Valid::whole_checked, field::specs::First::checked, field::specs::First::less, field::specs::First::differ, field::specs::First::when))]
pub fn check_whole(table: &[u8], least: usize) -> Result<(), Refusal>
    ensures value { result ≡ whole_checked least table.now }
    ensures whole { OnOk result ((max header_size least ≤ length table.now) × (length_of table.now ≡ length table.now)) }
{
    if table.len() < least.max(HEADER_SIZE) || stated_length(table) as usize != table.len() {
        return Err(Refusal::TooShort);
    }
    Ok(())
}
