// Generic addresses: where a register lies (ACPI 6.5, section 5.2.3.2, "Generic Address Structure").
#![tactic(auto)]

ghost use Rattle.std.specs.Prelude.{◌≡◌, ◌+◌, ◌≤◌, length};
ghost use Rattle.address.specs.Space.{space_of, space_number};
ghost use Rattle.address.specs.Size.{size_of, size_number};
ghost use Rattle.address.specs.Generic.{generic_address_at};

use refusal::Refusal;

// The address spaces, under the names of the Rust crate.
#[derive(Clone, Copy)]
pub enum AddressSpace {
    SystemMemory,
    SystemIo,
    PciConfigSpace,
    EmbeddedController,
    SMBus,
    SystemCmos,
    PciBarTarget,
    Ipmi,
    GeneralIo,
    GenericSerialBus,
    PlatformCommunicationsChannel,
    FunctionalFixedHardware,
    OemDefined(u8),
}

// The access sizes, each with its number.
#[derive(Clone, Copy)]
pub enum AccessSize {
    Undefined = 0,
    ByteAccess = 1,
    WordAccess = 2,
    DWordAccess = 3,
    QWordAccess = 4,
}

// The width has 32 bits, since that of a register block is eight times a length byte.
#[derive(Clone, Copy)]
pub struct GenericAddress {
    pub address_space: AddressSpace,
    pub bit_width: u32,
    pub bit_offset: u8,
    pub access_size: AccessSize,
    pub address: u64,
}

// The number of an address space, as a table has it. It is a match, since the maker's own spaces carry theirs.
impl From<AddressSpace> for u8 {
    ghost from_gives = { λ space n. n ≡ space_number space };

    fn from(space: AddressSpace) -> u8 {
        match space {
            AddressSpace::SystemMemory => 0x00,
            AddressSpace::SystemIo => 0x01,
            AddressSpace::PciConfigSpace => 0x02,
            AddressSpace::EmbeddedController => 0x03,
            AddressSpace::SMBus => 0x04,
            AddressSpace::SystemCmos => 0x05,
            AddressSpace::PciBarTarget => 0x06,
            AddressSpace::Ipmi => 0x07,
            AddressSpace::GeneralIo => 0x08,
            AddressSpace::GenericSerialBus => 0x09,
            AddressSpace::PlatformCommunicationsChannel => 0x0a,
            AddressSpace::FunctionalFixedHardware => 0x7f,
            AddressSpace::OemDefined(n) => n,
        }
    }
}

// The address space that a number names. Those from 0xc0 on are the maker's own, and the others are reserved.
impl TryFrom<u8> for AddressSpace {
    type Error = Refusal;

    ghost try_from_gives = { λ n space. space ≡ space_of n };

    #[tactic(auto, unfolding(crate::specs::Space::space_of, field::specs::First::less, field::specs::First::when))]
    fn try_from(n: u8) -> Result<AddressSpace, Refusal> {
        match n {
            0x00 => Ok(AddressSpace::SystemMemory),
            0x01 => Ok(AddressSpace::SystemIo),
            0x02 => Ok(AddressSpace::PciConfigSpace),
            0x03 => Ok(AddressSpace::EmbeddedController),
            0x04 => Ok(AddressSpace::SMBus),
            0x05 => Ok(AddressSpace::SystemCmos),
            0x06 => Ok(AddressSpace::PciBarTarget),
            0x07 => Ok(AddressSpace::Ipmi),
            0x08 => Ok(AddressSpace::GeneralIo),
            0x09 => Ok(AddressSpace::GenericSerialBus),
            0x0a => Ok(AddressSpace::PlatformCommunicationsChannel),
            0x7f => Ok(AddressSpace::FunctionalFixedHardware),
            0xc0.. => Ok(AddressSpace::OemDefined(n)),
            _ => Err(Refusal::UnknownSpaceOrSize),
        }
    }
}

// The number of an access size, as a table has it.
impl From<AccessSize> for u8 {
    ghost from_gives = { λ size n. n ≡ size_number size };

    fn from(size: AccessSize) -> u8 {
        size as u8
    }
}

// The access size that a number names.
impl TryFrom<u8> for AccessSize {
    type Error = Refusal;

    ghost try_from_gives = { λ n size. size ≡ size_of n };

    #[tactic(auto, unfolding(crate::specs::Size::size_of, field::specs::First::less, field::specs::First::when))]
    fn try_from(n: u8) -> Result<AccessSize, Refusal> {
        match n {
            0 => Ok(AccessSize::Undefined),
            1 => Ok(AccessSize::ByteAccess),
            2 => Ok(AccessSize::WordAccess),
            3 => Ok(AccessSize::DWordAccess),
            4 => Ok(AccessSize::QWordAccess),
            _ => Err(Refusal::UnknownSpaceOrSize),
        }
    }
}

// The generic address at an offset. It is refused where its space or its access size is unknown. The slice and the offset come apart,
// since callers have a table and a place in its layout.
#[tactic(auto, unfolding(crate::specs::Generic::generic_address_at))]
pub fn generic_address(bytes: &[u8], at: usize) -> Result<GenericAddress, Refusal>
    requires { at + 12 ≤ length bytes.now }
    ensures { result ≡ generic_address_at bytes.now at }
{
    Ok(GenericAddress {
        address_space: AddressSpace::try_from(field::u8_at(bytes, at))?,
        bit_width: field::u8_at(bytes, at + 1) as u32,
        bit_offset: field::u8_at(bytes, at + 2),
        access_size: AccessSize::try_from(field::u8_at(bytes, at + 3))?,
        address: field::u64_at(bytes, at + 4),
    })
}
