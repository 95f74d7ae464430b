//! Radix trees, as a user writes them: each call at both flavours, generic code, and a tree of this
//! crate's own with children.
ghost use Rattle.std.specs.Prelude.{◌≡◌, ◌<◌, ℕ, List, [], ◌∷◌, Ok, Some, None, false, length, map, IfOk, OnOk, OnErr};
ghost use Rattle.std.specs.Prelude.{cond, nat_lt};
ghost use Rattle.std.specs.Ordering.{nat_cmp};
ghost use Rattle.std.specs.Option.{option_and_then, option_copied};
ghost use Rattle.vec_collections.specs.Commanded.{command_of};
ghost use Rattle.vec_collections.specs.Machine.{Run};
ghost use Rattle.vec_collections.specs.Map.{lookup, or_else, HaveEqualMaps, IsInserted, IsEqualMap};
ghost use Rattle.vec_collections.specs.Tree.{made, no_tree, is_bare};
ghost use Rattle.vec_collections.specs.Under.{under};
ghost use Rattle.vec_collections.specs.Value.{Copies};
ghost use Rattle.vec_collections.specs.Without.{IsWithout, IsWithoutBelow};

use std::alloc::{AllocError, Global};
use std::marker::Model;
use vec_collections::radix_tree::{
    AbstractRadixTree, AbstractRadixTreeMut, ArcRadixTree, RadixNode, RadixTree, TKey, TValue,
    TreeCommand, run,
};

/// The ports of servers.
pub type Ports = RadixTree<u8, u32>;

/// The ports of servers, of which snapshots are kept.
pub type SharedPorts = ArcRadixTree<u8, u32>;

/// Sets the port of a server, and answers the old one.
#[tactic(auto, using(vec_collections::specs::Exact::exactly))]
pub fn set_shared_port(
    ports: &mut SharedPorts,
    server: &[u8],
    port: u32,
) -> Result<Option<u32>, AllocError>
    ensures had { IfOk result (λ had. had ≡ lookup nat_cmp ports.old server.now) }
    ensures set { OnOk result
        (IsInserted nat_cmp (λ x y. x ≡ y) server.now port ports.old ports.new) }
{
    ports.replace(server, port)
}

/// Moves a server to the next port, and answers whether it has one.
pub fn move_to_next_port<T: AbstractRadixTreeMut<u8, u32>>(
    ports: &mut T,
    server: &[u8],
) -> Result<bool, AllocError>
    ensures none { lookup nat_cmp (T.tree ports.old) server.now ≡ None
        → (result ≡ Ok false) × (T.tree ports.new ≡ T.tree ports.old) }
    ensures err { OnErr result (HaveEqualMaps nat_cmp T.keeps (T.tree ports.old)
        (T.tree ports.new)) }
{
    let moved = ports.update(server, |port: &mut u32| *port = port.saturating_add(1))?;
    Ok(moved.is_some())
}

/// Removes the port of a server where the ports are shared, and answers it.
#[tactic(auto, using(vec_collections::specs::Exact::exactly))]
pub fn forget_shared_port(ports: &mut SharedPorts, server: &[u8]) -> Result<Option<u32>, AllocError>
    ensures had { IfOk result (λ had. had ≡ lookup nat_cmp ports.old server.now) }
    ensures gone { OnOk result (IsWithout nat_cmp (λ x y. x ≡ y) server.now
        (lookup nat_cmp ports.old) (lookup nat_cmp ports.new)) }
{
    ports.remove(server)
}

/// Removes the servers whose names begin with the zone, and returns them with their ports.
#[tactic(auto, using(vec_collections::specs::Exact::exactly))]
pub fn split_zone(ports: &mut Ports, zone: &[u8]) -> Result<Ports, AllocError>
    ensures handed { IfOk result (λ handed. IsEqualMap (λ x y. x ≡ y)
        (under nat_cmp (lookup nat_cmp ports.old) zone.now) (lookup nat_cmp handed)) }
    ensures gone { OnOk result (IsWithoutBelow nat_cmp (λ x y. x ≡ y) zone.now
        (lookup nat_cmp ports.old) (lookup nat_cmp ports.new)) }
    ensures err { OnErr result (HaveEqualMaps nat_cmp (λ x y. x ≡ y) ports.old ports.new) }
{
    ports.split_below(zone)
}

/// When sessions end, by their names.
pub type Sessions = RadixTree<u8, u64>;

/// Removes the sessions that have ended.
pub fn drop_ended(sessions: &mut Sessions, now: u64) -> Result<(), AllocError>
    ensures { OnOk result ((name : List ℕ) → lookup nat_cmp sessions.new name
        ≡ option_and_then (λ end. cond (nat_lt now end) (Some end) None)
        (lookup nat_cmp sessions.old name)) }
{
    sessions.retain(|_, end| now < *end)
}

/// Changes the ports, one change after another, and answers which changes succeeded.
pub fn change_ports(
    ports: &mut Ports,
    changes: Vec<TreeCommand<u8, u32, Ports>>,
) -> Result<Vec<bool>, AllocError>
    ensures made { IfOk result (λ made. Run nat_cmp (Copies (λ x y. y ≡ x))
        (lookup nat_cmp ports.old) (map (command_of (λ t. t)) changes.items) made.items
        (lookup nat_cmp ports.new)) }
    ensures err { OnErr result (ports.new ≡ ports.old) }
{
    let mut made = vec![in *changes.allocator(); false; changes.len()]?;
    run(ports, changes, made.as_mut_slice());
    Ok(made)
}

/// A snapshot of the ports.
pub fn snapshot_of(ports: &SharedPorts) -> Result<SharedPorts, AllocError>
    ensures { IfOk result (λ copy. copy ≡ ports.now) }
{
    ports.clone()
}

/// The tree with no port.
pub fn no_ports(alloc: Global) -> Ports
    ensures { result ≡ no_tree }
{
    Ports::empty(alloc)
}

/// One port for the empty name.
pub fn default_port(alloc: Global, port: u32) -> SharedPorts
    ensures { result ≡ made [] (Some port) [] }
{
    SharedPorts::leaf(alloc, port)
}

/// The port of one server.
pub fn one_port(alloc: Global, server: &[u8], port: u32) -> Result<Ports, AllocError>
    ensures { IfOk result (λ ports. ports ≡ made server.now (Some port) []) }
{
    Ports::single(alloc, server, port)
}

/// How long the beginning of all names of servers is, the port of that name itself, and whether
/// there is no port.
pub fn root_of(ports: &Ports) -> (usize, Option<u32>, bool)
    ensures prefix { result.0 ≡ length ports.now.prefix }
    ensures value { result.1 ≡ ports.now.value }
    ensures none { result.2 ≡ is_bare ports.now }
{
    (
        ports.prefix().len(),
        ports.value().copied(),
        ports.is_empty(),
    )
}

/// The value of the key in the first of two trees of any kind that binds it.
pub fn get_first<'a, K: TKey, V: TValue, S: AbstractRadixTree<K, V>, T: AbstractRadixTree<K, V>>(
    first: &'a S,
    second: &'a T,
    key: &[K],
) -> Option<&'a V>
    ensures { option_copied result ≡ or_else (lookup K.cmp (S.tree first.now) key.now)
        (lookup K.cmp (T.tree second.now) key.now) }
{
    match first.get(key) {
        Some(value) => Some(value),
        None => second.get(key),
    }
}

/// A catalogue of articles by their shelves: a tree of this crate's own.
#[derive(Drop)]
pub struct Catalogue {
    shelf: Vec<u8>,
    article: Option<u32>,
    parts: Vec<Catalogue>,
}

impl Model for Catalogue {
    ghost use Rattle.std.specs.Prelude.{ℕ};
    ghost use Rattle.std.specs.Coded.{coded_ℕ};
    ghost use Rattle.std.specs.Ordering.{nat_cmp};
    ghost use Rattle.std.proofs.Common.{arith};
    ghost use Rattle.vec_collections.specs.Tree.{Tree, made, nodes};
    ghost use Rattle.vec_collections.specs.TreeCode.{tree_code, most_le-nodes};
    ghost use Rattle.vec_collections.specs.Canonical.{IsCanonical};

    ghost Value = { Tree ℕ ℕ };

    ghost coded = { tree_code coded_ℕ coded_ℕ };

    ghost view = { λ c. made c.shelf.items c.article c.parts.items };

    ghost invariant = { λ c. IsCanonical nat_cmp (made c.shelf.items c.article c.parts.items) };

    ghost size = { nodes };

    ghost size_decreases = { λ c h. omega (arith, most_le-nodes c.parts.items) };
}

impl RadixNode<u8, u32> for Catalogue {
    ghost tree = { λ t. t };

    fn prefix(&self) -> &[u8] {
        self.shelf.as_slice()
    }

    fn value(&self) -> Option<&u32> {
        self.article.as_ref()
    }

    fn children(&self) -> &[Catalogue] {
        self.parts.as_slice()
    }

    fn allocator(&self) -> Global {
        *self.shelf.allocator()
    }
}

impl Catalogue {
    /// The catalogue of one article.
    pub fn of_one(alloc: Global, shelf: u8, article: u32) -> Result<Catalogue, AllocError>
        ensures { IfOk result (λ c. c ≡ made (shelf ∷ []) (Some article) []) }
    {
        Ok(Catalogue {
            shelf: vec![in alloc; shelf]?,
            article: Some(article),
            parts: Vec::new(alloc),
        })
    }

    /// The catalogue of two articles, the lower shelf first.
    pub fn of_two(alloc: Global, low: (u8, u32), high: (u8, u32)) -> Result<Catalogue, AllocError>
        requires { low.0 < high.0 }
        ensures { IfOk result (λ c. c ≡ made [] None
            (made (low.0 ∷ []) (Some low.1) [] ∷ made (high.0 ∷ []) (Some high.1) [] ∷ [])) }
    {
        let low = Catalogue::of_one(alloc, low.0, low.1)?;
        let high = Catalogue::of_one(alloc, high.0, high.1)?;
        Ok(Catalogue {
            shelf: Vec::new(alloc),
            article: None,
            parts: vec![in alloc; low, high]?,
        })
    }

    /// The article on a shelf.
    pub fn article_at(&self, shelf: &[u8]) -> Option<u32>
        ensures { result ≡ lookup nat_cmp self.now shelf.now }
    {
        self.get(shelf).copied()
    }
}
