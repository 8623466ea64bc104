// The AML of a DSDT or an SSDT: what follows its header (ACPI 6.5, section 5.2.11).
ghost use Rattle.std.specs.Prelude.{◌≡◌};
ghost use Rattle.answers.specs.Aml.{aml_of};

use refusal::Refusal;
use tables::Table;

// Its physical address and its length.
#[derive(Clone, Copy)]
pub struct Aml {
    pub address: u64,
    pub length: u64,
}

// What follows the header of a table; or `NotThere` where its address would be 2 ^ 64.
#[tactic(auto, unfolding(crate::specs::Aml::aml_of, field::specs::First::less, field::specs::First::when))]
pub fn behind_the_header(table: Table) -> Result<Aml, Refusal>
    ensures { result ≡ aml_of table }
{
    let address = table
        .address
        .checked_add(sdt::HEADER_SIZE as u64)
        .ok_or(Refusal::NotThere)?;
    Ok(Aml {
        address,
        length: table.len.saturating_sub(sdt::HEADER_SIZE) as u64,
    })
}
