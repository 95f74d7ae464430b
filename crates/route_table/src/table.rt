//! Tables of routes.

ghost use Rattle.std.specs.Prelude.{◌≡◌, cond, List, [], Bool, None, Some, IfOk, OnErr, OnOk};
ghost use Rattle.std.specs.Net.Addr.{ipv4_bits};
ghost use Rattle.std.specs.Option.{is_some};
ghost use Rattle.std.specs.Ordering.{bool_cmp};
ghost use Rattle.std.specs.String.{string_bytes};
ghost use Rattle.vec_collections.specs.IterLeft.{pairs_left};
ghost use Rattle.vec_collections.specs.Map.{lookup};
ghost use Rattle.vec_collections.specs.Under.{under};
ghost use Rattle.vec_collections.specs.Walk.{IsWalk};
ghost use Rattle.route_table.specs.Prefix.{prefix_bits, same_prefix};
ghost use Rattle.route_table.specs.Routes.{hop_at, IsAfter, IsDecided, routes_after};
ghost use Rattle.route_table.specs.declared.line.Line.{Line};

use crate::prefix::{Prefix, address_bits};
use std::alloc::{AllocError, Global};
use std::net::Ipv4Addr;
use vec_collections::radix_tree::{AbstractRadixTree, AbstractRadixTreeMut, Iter, RadixTree};

/// Routes by their prefixes, each with the name of its hop.
#[derive(Drop)]
pub struct Table {
    hops: RadixTree<bool, String>,
}

/// Routes in the order of their bits, each with the name of its hop.
pub type Walk<'a> = Iter<'a, bool, String, RadixTree<bool, String>>;

/// The route that decides for an address.
#[derive(Clone, Copy, Debug)]
pub struct Decision<'a> {
    pub prefix: Prefix,
    pub hop: &'a str,
}

impl Table {
    /// A table with no route.
    pub fn new(alloc: Global) -> Self
        ensures { IsAfter [] result }
    {
        Table {
            hops: RadixTree::empty(alloc),
        }
    }

    /// Adds a route, which replaces the one with this prefix. On refusal all routes stay.
    pub fn add(&mut self, prefix: &Prefix, hop: String) -> Result<(), AllocError>
        ensures ok { OnOk result ((other : List Bool)
            → hop_at self.new other ≡ cond (same_prefix (prefix_bits prefix.now) other)
            (Some (string_bytes hop)) (hop_at self.old other)) }
        ensures err { OnErr result
            ((other : List Bool) → hop_at self.new other ≡ hop_at self.old other) }
    {
        self.hops.insert(prefix.as_bits(), hop)
    }

    /// Removes the route with this prefix, and answers whether there was one. On refusal all stay.
    pub fn withdraw(&mut self, prefix: &Prefix) -> Result<bool, AllocError>
        ensures had { IfOk result
            (λ had. had ≡ is_some (hop_at self.old (prefix_bits prefix.now))) }
        ensures ok { OnOk result ((other : List Bool)
            → hop_at self.new other ≡ cond (same_prefix (prefix_bits prefix.now) other)
            None (hop_at self.old other)) }
        ensures err { OnErr result
            ((other : List Bool) → hop_at self.new other ≡ hop_at self.old other) }
    {
        Ok(self.hops.remove(prefix.as_bits())?.is_some())
    }

    /// The longest route that covers the address, if one does.
    pub fn decide(&self, address: Ipv4Addr) -> Option<Decision<'_>>
        ensures now { IsDecided (hop_at self.now) (ipv4_bits address) result }
        ensures after { (lines : List Line) → IsAfter lines self.now
            → IsDecided (routes_after lines) (ipv4_bits address) result }
    {
        let bits = address_bits(address);
        let (length, hop) = self.hops.get_longest(&bits)?;
        Some(Decision {
            prefix: Prefix::new(address, length),
            hop: hop.as_str(),
        })
    }

    /// The routes whose prefixes begin with this one, in the order of their bits: a prefix comes
    /// before what it covers.
    pub fn within<'a>(&'a self, prefix: &'a Prefix) -> Walk<'a>
        ensures { IsWalk bool_cmp
            (under bool_cmp (lookup bool_cmp self.now.hops) (prefix_bits prefix.now))
            (pairs_left (λ t. t) result) }
    {
        self.hops.scan_prefix(prefix.as_bits())
    }
}
