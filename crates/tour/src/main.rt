//! Shows each program of `users` on a small input.
#![tactic(auto)]

ghost use Rattle.std.specs.Prelude.{◌≡◌, ◌||◌, ◌&&◌, IfOk, ℕ, leb, ltb};
ghost use Rattle.users.specs.Hours.{is_open};

use std::alloc::{AllocError, Global};
use std::io;
use users::configuration::History;
use users::counters::Counters;
use users::hours::Hours;
use users::paths::Files;
use users::tags::{Found, Index};
use vec_collections::path_filter::PathFilter;

fn main(rt: HostRuntime) -> io::Result<()> {
    let alloc = rt.alloc();
    show_openings(&rt, alloc)?;
    show_tags(&rt, alloc)?;
    show_configuration(&rt, alloc)?;
    show_counters(&rt, alloc)?;
    show_paths(&rt, alloc)
}

/// The hours at which a bakery or a bar is open.
fn either_is_open(alloc: Global) -> Result<Hours, AllocError>
    ensures { IfOk result (λ hours. (hour : ℕ)
        → is_open hours hour ≡ ((leb 6 hour && ltb hour 14) || (leb 12 hour && ltb hour 20))) }
{
    let bakery = Hours::between(alloc, 6, 14)?;
    let bar = Hours::between(alloc, 12, 20)?;
    bakery.either(&bar)
}

/// Opening hours of two shops.
fn show_openings(rt: &impl Print, alloc: Global) -> io::Result<()> {
    let bakery = Hours::between(alloc, 6, 14)?;
    let bar = Hours::between(alloc, 12, 20)?;
    let either = either_is_open(alloc)?;
    show_hours(rt, "either is open", &either)?;
    show_hours(rt, "both are open", &bakery.both(&bar)?)?;
    show_hours(rt, "the bakery alone is open", &bakery.alone(&bar)?)?;
    show_hours(rt, "only one is open", &bakery.only_one(&bar)?)?;
    show_hours(rt, "both are closed", &either.closed())
}

/// The hours of a day that are in the set, as one mark each.
fn show_hours(rt: &impl Print, what: &str, hours: &Hours) -> io::Result<()> {
    for hour in 0..24 {
        print!(rt; "{}", if hours.is_open(hour) { '#' } else { '.' })?;
    }
    println!(rt; " {what}")
}

const RUST: u32 = 1;

const PROOFS: u32 = 2;

const COOKING: u32 = 3;

/// Articles by their tags.
fn show_tags(rt: &impl Print, alloc: Global) -> io::Result<()> {
    let mut index = Index::new(alloc);
    for (article, tag) in [(10, RUST), (10, PROOFS), (11, RUST), (12, COOKING)] {
        index.tag(alloc, article, tag)?;
    }
    let on_rust = index.all_of(alloc, &[RUST])?;
    let no_proofs = index.none_of(alloc, &[PROOFS])?;
    show_found(
        rt,
        "on Rust and proofs",
        &index.all_of(alloc, &[RUST, PROOFS])?,
    )?;
    show_found(
        rt,
        "on proofs or cooking",
        &index.any_of(alloc, &[PROOFS, COOKING])?,
    )?;
    show_found(rt, "not on proofs", &no_proofs)?;
    show_found(rt, "on Rust, not on proofs", &on_rust.and(&no_proofs)?)
}

/// The articles of a query, among those from 10 to 13.
fn show_found(rt: &impl Print, query: &str, found: &Found) -> io::Result<()> {
    print!(rt; "{query}:")?;
    for article in 10..14 {
        if found.has(article) {
            print!(rt; " {article}")?;
        }
    }
    println!(rt; "")
}

/// Versions of a configuration.
fn show_configuration(rt: &impl Print, alloc: Global) -> io::Result<()> {
    let mut history = History::new(alloc);
    history.set(alloc, b"net/port", 80)?;
    history.set(alloc, b"net/retries", 3)?;
    history.set(alloc, b"net/port", 8080)?;
    history.unset(alloc, b"net/")?;
    for version in 0..4 {
        let port = history.at(version, b"net/port");
        let retries = history.at(version, b"net/retries");
        println!(rt;
            "version {version}: port {}, retries {}",
            port.unwrap_or(0),
            retries.unwrap_or(0)
        )?;
    }
    let changes = history.changes(alloc, 0, 2)?;
    println!(rt;
        "from 0 to 2 the port changed: {}",
        changes.has(b"net/port")
    )
}

const APPLES: u32 = 1;

const PEARS: u32 = 2;

const PLUMS: u32 = 3;

/// What is in two baskets.
fn show_counters(rt: &impl Print, alloc: Global) -> io::Result<()> {
    let apples = Counters::one(alloc, APPLES, 3)?;
    let pears = Counters::one(alloc, PEARS, 2)?;
    let basket = apples.sum(&pears)?;
    let twice = basket.scaled(2)?;
    let at_least_five = twice.greater(&Counters::all(alloc, 5))?;
    show_basket(rt, "a basket", &basket)?;
    show_basket(rt, "twice as much", &twice)?;
    show_basket(rt, "at least five of each", &at_least_five)
}

/// The counts of three fruits.
fn show_basket(rt: &impl Print, what: &str, counts: &Counters) -> io::Result<()> {
    println!(rt;
        "{what}: apples {}, pears {}, plums {}",
        counts.count(APPLES),
        counts.count(PEARS),
        counts.count(PLUMS)
    )
}

/// Files, where the rules of a filter decide which remain.
fn show_paths(rt: &impl Print, alloc: Global) -> io::Result<()> {
    let mut files = Files::new(alloc);
    files.add(b"src/main", 120)?;
    files.add(b"src/secret/key", 32)?;
    files.add(b"notes", 7)?;
    let mut filter = PathFilter::new(alloc);
    filter.allow(b"src/")?;
    filter.deny(b"src/secret/")?;
    files.keep(&filter)?;
    println!(rt;
        "src/main {}, src/secret/key {}, notes {}",
        files.size(b"src/main").unwrap_or(0),
        files.size(b"src/secret/key").unwrap_or(0),
        files.size(b"notes").unwrap_or(0)
    )
}
