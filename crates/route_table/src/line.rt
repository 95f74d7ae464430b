//! Lines of tables and of questions.

use crate::fault::Fault;
use crate::prefix::{BITS, Prefix};
use std::net::Ipv4Addr;

/// What a line says. What follows a `#` is a comment.
#[derive(Clone, Copy, Debug)]
pub enum Line<'a> {
    /// Nothing.
    Blank,
    /// `10.0.0.0/8 east`: a route by this hop, which replaces the one with this prefix.
    Add(Prefix, &'a str),
    /// `- 10.0.0.0/8`: the route with this prefix is removed.
    Withdraw(Prefix),
    /// `10.1.2.3`: which route decides about the address?
    Decide(Ipv4Addr),
    /// `? 10.0.0.0/8`: which routes are within this prefix?
    Within(Prefix),
}

impl<'a> Line<'a> {
    /// Reads a line.
    pub fn read(text: &'a str) -> Result<Line<'a>, Fault> {
        let text = match text.split_once('#') {
            Some((text, _)) => text,
            None => text,
        };
        let mut words = text.split_ascii_whitespace();
        match (words.next(), words.next(), words.next()) {
            (None, _, _) => Ok(Line::Blank),
            (Some("-"), Some(prefix), None) => Ok(Line::Withdraw(read_prefix(prefix)?)),
            (Some("?"), Some(prefix), None) => Ok(Line::Within(read_prefix(prefix)?)),
            (Some(prefix), Some(hop), None) => Ok(Line::Add(read_prefix(prefix)?, hop)),
            (Some(address), None, None) => Ok(Line::Decide(read_address(address)?)),
            _ => Err(Fault::TooManyWords),
        }
    }
}

fn read_address(text: &str) -> Result<Ipv4Addr, Fault> {
    Ipv4Addr::parse_ascii(text.as_bytes()).map_err(|_| Fault::NotAnAddress)
}

/// Reads an address, a `/`, and the number of its bits that count. The bits after these are zero.
fn read_prefix(text: &str) -> Result<Prefix, Fault> {
    let (address, length) = text.split_once('/').ok_or(Fault::NotAPrefix)?;
    let address = Ipv4Addr::parse_ascii(address.as_bytes()).map_err(|_| Fault::NotAPrefix)?;
    let length = length.parse::<usize>().map_err(|_| Fault::NotAPrefix)?;
    let prefix = Prefix::new(address, length);
    if length > BITS || prefix.first_address() != address {
        return Err(Fault::NotAPrefix);
    }
    Ok(prefix)
}
