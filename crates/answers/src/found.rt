// The words of numbers, and of what is found on the way to a table.
ghost use Rattle.std.specs.Prelude.{ℕ, List, Ok};
ghost use Rattle.answers.specs.Answer.{Put};
ghost use Rattle.answers.specs.Words.{one_value, rsdp_values, root_values, table_values, aml_values};

use crate::aml::Aml;
use crate::{Values, put};
use refusal::Refusal;
use rsdp::Rsdp;
use tables::{RootTable, Table};

// An address, or another number.
impl Values for u64 {
    ghost values = { one_value };

    fn put(self, out: &mut [u64]) -> Result<(), Refusal> {
        put(out, &[self])
    }
}

// How many there are of something.
impl Values for usize {
    ghost values = { one_value };

    fn put(self, out: &mut [u64]) -> Result<(), Refusal> {
        put(out, &[self as u64])
    }
}

impl Values for Rsdp {
    ghost values = { rsdp_values };

    fn put(self, out: &mut [u64]) -> Result<(), Refusal> {
        put(
            out,
            &[
                self.revision as u64,
                self.length as u64,
                self.rsdt_address as u64,
                self.xsdt_address,
            ],
        )
    }
}

impl Values for RootTable {
    ghost values = { root_values };

    fn put(self, out: &mut [u64]) -> Result<(), Refusal> {
        put(
            out,
            &[
                self.kind as u64,
                self.address,
                self.at as u64,
                self.len as u64,
                self.entry_size as u64,
                self.entries as u64,
            ],
        )
    }
}

impl Values for Table {
    ghost values = { table_values };

    fn put(self, out: &mut [u64]) -> Result<(), Refusal> {
        put(out, &[self.address, self.at as u64, self.len as u64])
    }
}

impl Values for Aml {
    ghost values = { aml_values };

    fn put(self, out: &mut [u64]) -> Result<(), Refusal> {
        put(out, &[self.address, self.length])
    }
}
