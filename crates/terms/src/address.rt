// An address as the processor puts it on its bus: 20 bits, 64 pages of 16,384 bytes.
// It is never a place in a socket: only the mapper's translation leads from one to the other.
// The bounds are ghost fields, and no model hides the numbers: the contracts above speak of both.
ghost use Rattle.std.specs.Prelude.{◌≡◌, ℕ, ◌/◌, ◌%◌, ◌<◌, if◌then◌else◌, Ok, Err, nat_lt};
ghost use Rattle.terms.specs.Limits.{addresses, cpu_pages, page_size};
ghost use Rattle.terms.specs.Results.{ok_map};
ghost use Rattle.terms.specs.declared.refusal.Refusal.TheVariants.{IndexTooLarge};

use super::{PAGE_SIZE, Refusal};

#[derive(Clone, Copy, Debug, PartialEq, Eq)]
pub struct CpuAddress {
    bits: u32,
    ghost fits: { bits < addresses },
}

// One of the 64 pages of the processor's addresses. A struct of its own, so that no other number is taken for it.
#[derive(Clone, Copy, Debug, PartialEq, Eq)]
pub struct CpuPage {
    number: u8,
    ghost fits: { number < cpu_pages },
}

const ADDRESSES: u32 = 0x10_0000;

// The address of that number, if it has 20 bits.
impl TryFrom<u32> for CpuAddress {
    type Error = Refusal;

    ghost try_from_gives = { λ bits r. ok_map (λ a. a.bits) r ≡ (if nat_lt bits addresses then Ok bits else Err IndexTooLarge) };

    fn try_from(bits: u32) -> Result<Self, Refusal> {
        if bits < ADDRESSES {
            Ok(CpuAddress { bits })
        } else {
            Err(Refusal::IndexTooLarge)
        }
    }
}

impl CpuAddress {
    pub fn bits(self) -> u32
        ensures { result ≡ self.bits }
    {
        self.bits
    }

    // The page that the address lies in.
    pub fn page(self) -> CpuPage
        ensures { result.number ≡ self.bits / page_size }
    {
        CpuPage {
            number: (self.bits / PAGE_SIZE) as u8,
        }
    }

    // How far into its page the address lies.
    pub fn offset(self) -> u32
        ensures { result ≡ self.bits % page_size }
    {
        let bits = self.bits;
        bits % PAGE_SIZE
    }
}

// The page of that number, if there is one.
impl TryFrom<u32> for CpuPage {
    type Error = Refusal;

    ghost try_from_gives = { λ number r. ok_map (λ p. p.number) r ≡ (if nat_lt number cpu_pages then Ok number else Err IndexTooLarge) };

    fn try_from(number: u32) -> Result<Self, Refusal> {
        if number < ADDRESSES / PAGE_SIZE {
            Ok(CpuPage {
                number: number as u8,
            })
        } else {
            Err(Refusal::IndexTooLarge)
        }
    }
}

impl CpuPage {
    pub fn number(self) -> u8
        ensures { result ≡ self.number }
    {
        self.number
    }
}
