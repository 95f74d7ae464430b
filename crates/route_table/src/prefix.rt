//! Prefixes of IPv4 addresses.

ghost use Rattle.std.specs.Prelude.{◌≡◌, ◌≤◌, take};
ghost use Rattle.std.specs.Net.Addr.{ipv4_bits};
ghost use Rattle.route_table.specs.Bits.{bits_of};

use std::fmt;
use std::net::Ipv4Addr;

/// The number of bits of an address.
pub const BITS: usize = 32;

/// The bits of an address, the most significant one first.
pub fn address_bits(address: Ipv4Addr) -> [bool; BITS]
    ensures { result ≡ bits_of (ipv4_bits address) }
{
    let number = address.to_bits();
    let mut bits = [false; BITS];
    for place in 0..BITS {
        bits[place] = (number >> (BITS - 1 - place)) % 2 == 1;
    }
    bits
}

/// The first bits that the addresses of a network share.
#[derive(Clone, Copy, Debug)]
pub struct Prefix {
    bits: [bool; BITS],
    length: usize,
    ghost in_range: { length ≤ 32 },
}

impl Prefix {
    ghost use Rattle.route_table.specs.Prefix.{prefix_bits};

    /// The first `length` bits of an address, or all of them where it has fewer.
    pub fn new(address: Ipv4Addr, length: usize) -> Self
        ensures { prefix_bits result ≡ take length (bits_of (ipv4_bits address)) }
    {
        let bits = address_bits(address);
        Prefix {
            bits,
            length: length.min(BITS),
        }
    }

    /// These bits, or the first 32 of them where there are more.
    pub fn of_bits(bits: &[bool]) -> Self
        ensures { prefix_bits result ≡ take 32 bits.now }
    {
        let length = bits.len().min(BITS);
        let mut all = [false; BITS];
        all[..length].copy_from_slice(&bits[..length]);
        Prefix { bits: all, length }
    }

    /// The bits, the most significant one first.
    pub fn as_bits(&self) -> &[bool]
        ensures { result.now ≡ prefix_bits self.now }
    {
        &self.bits[..self.length]
    }

    /// The first address that begins with the bits.
    pub(crate) fn first_address(&self) -> Ipv4Addr {
        let mut number = 0u32;
        for place in 0..self.length {
            if self.bits[place] {
                number |= 1 << (BITS - 1 - place);
            }
        }
        Ipv4Addr::from_bits(number)
    }
}

impl fmt::Display for Prefix {
    fn fmt<W: fmt::Write>(&self, f: &mut fmt::Formatter<W>) -> fmt::Result {
        let address = self.first_address();
        let length = self.length;
        write!(f, "{address}/{length}")
    }
}
