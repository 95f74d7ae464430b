//! The table compared with a plain list of routes, on routes and addresses from a simple generator.
use crate::serve::{load, serve};
use route_table::prefix::Prefix;
use route_table::table::Table;
use std::alloc::{AllocError, Global};
use std::net::Ipv4Addr;
use std::test::Fail;

/// Numbers that look random, the same ones at each run.
#[derive(Drop)]
struct Numbers(u64);

impl Numbers {
    fn next(&mut self) -> u32 {
        self.0 = self.0.wrapping_mul(6_364_136_223_846_793_005);
        self.0 = self.0.wrapping_add(1_442_695_040_888_963_407);
        (self.0 >> 32) as u32
    }

    /// An address that begins with 10.
    fn address(&mut self) -> u32 {
        self.next() % 0x0100_0000 + 0x0a00_0000
    }

    /// A route whose prefix has from 8 to 32 bits.
    fn route(&mut self, hop: u32) -> Plain {
        let address = self.address();
        let length = 8 + self.next() % 25;
        Plain {
            address,
            length,
            hop,
        }
    }
}

/// A route of the plain list.
#[derive(Clone, Copy, Debug, PartialEq, Eq)]
struct Plain {
    address: u32,
    length: u32,
    hop: u32,
}

impl Plain {
    fn covers(&self, address: u32) -> bool {
        (self.address ^ address).leading_zeros() >= self.length
    }

    fn is_at(&self, other: &Plain) -> bool {
        self.length == other.length && self.covers(other.address)
    }

    fn prefix(&self) -> Prefix {
        Prefix::new(Ipv4Addr::from_bits(self.address), self.length as usize)
    }
}

/// The hop of the longest route of the list that covers the address.
fn hop_of_list(list: &[Plain], address: u32) -> Option<u32> {
    let mut longest: Option<Plain> = None;
    for route in list {
        let is_longer = longest.is_none_or(|found| found.length < route.length);
        if is_longer && route.covers(address) {
            longest = Some(*route);
        }
    }
    longest.map(|route| route.hop)
}

/// The same for the table, whose hops have numbers as their names.
fn hop_of_table(table: &Table, address: u32) -> Option<u32> {
    let decision = table.decide(Ipv4Addr::from_bits(address))?;
    decision.hop.parse::<u32>().ok()
}

/// Adds a route to both.
fn add(alloc: Global, table: &mut Table, list: &mut Vec<Plain>, route: Plain) -> Result<(), Fail> {
    let hop = format!(in alloc; "{}", route.hop)?;
    table.add(&route.prefix(), hop)?;
    list.retain(|other| !other.is_at(&route));
    list.push(route)?;
    Ok(())
}

/// Removes a route from both. Answers how often they differ in whether they had it.
fn withdraw(table: &mut Table, list: &mut Vec<Plain>, route: Plain) -> Result<u32, AllocError> {
    let had = list.iter().any(|other| other.is_at(&route));
    list.retain(|other| !other.is_at(&route));
    Ok(u32::from(table.withdraw(&route.prefix())? != had))
}

/// Fills a table and a list with `count` random routes, and removes some again on the way. Answers
/// how often the two differ: at a route that is removed, or at `count` addresses.
fn count_differing(alloc: Global, numbers: &mut Numbers, count: u32) -> Result<u32, Fail> {
    let mut table = Table::new(alloc);
    let mut list = Vec::new(alloc);
    let mut differing = 0u32;
    for hop in 0..count {
        let route = numbers.route(hop);
        if hop % 4 == 3 {
            let place = numbers.next() as usize % 512;
            let gone = list.get(place).copied().unwrap_or(route);
            differing = differing.saturating_add(withdraw(&mut table, &mut list, gone)?);
        }
        add(alloc, &mut table, &mut list, route)?;
    }
    for _ in 0..count {
        let address = numbers.address();
        let is_same = hop_of_table(&table, address) == hop_of_list(list.as_slice(), address);
        differing = differing.saturating_add(u32::from(!is_same));
    }
    Ok(differing)
}

/// Ten thousand routes and as many addresses, in twenty tables.
#[test]
fn decides_as_a_plain_list_does(rt: HostRuntime) -> Result<(), Fail> {
    let mut numbers = Numbers(1);
    for _ in 0..20 {
        assert_eq!(rt; count_differing(rt.alloc(), &mut numbers, 500)?, 0);
    }
    Ok(())
}

const TABLE: &str = "\
10.0.0.0/8 east
10.1.0.0/16
10.0.0.1/8 east
10.0.0.0/33 east
10.0.0.0 /8 east
- 11.0.0.0/8
? 10.0.0.0/8
10.1.0.0/16 west # the last line
";

const FAULTS: &str = "\
routes.txt: line 2: not an IPv4 address
routes.txt: line 3: not a prefix, such as 10.0.0.0/8
routes.txt: line 4: not a prefix, such as 10.0.0.0/8
routes.txt: line 5: too many words
routes.txt: line 6: no route has this prefix
routes.txt: line 7: a question in the table
standard input: line 2: not text in UTF-8
";

const ANSWERS: &str = "\
10.1.2.3 west 10.1.0.0/16
10.0.0.0/8 east
10.1.0.0/16 west
11.0.0.0/8 no route
";

#[test]
fn names_each_fault_and_answers_the_rest(rt: HostRuntime) -> Result<(), Fail> {
    let alloc = rt.alloc();
    let mut table = Table::new(alloc);
    let mut errors = Vec::new(alloc);
    let mut output = Vec::new(alloc);
    let name = "routes.txt";
    let is_loaded = load(alloc, &mut table, name, &mut TABLE.as_bytes(), &mut errors)?;
    let mut input = b"10.1.2.3\r\n\xff\n? 10.0.0.0/8\n\n? 11.0.0.0/8".as_slice();
    let is_served = serve(alloc, &mut table, &mut input, &mut output, &mut errors)?;
    assert!(rt; !is_loaded && !is_served);
    assert_eq!(rt; errors.as_slice(), FAULTS.as_bytes());
    assert_eq!(rt; output.as_slice(), ANSWERS.as_bytes());
    Ok(())
}
