//! What lines change in a table, and how they are answered.

ghost use Rattle.std.specs.Prelude.{◌≡◌, cond, Bool, List, ◌∷◌, None, Some, OnErr, OnOk};
ghost use Rattle.route_table.specs.Prefix.{prefix_bits, same_prefix};
ghost use Rattle.route_table.specs.Routes.{hop_at, IsAfter};
ghost use Rattle.route_table.specs.declared.line.Line.{Line};

use crate::fault::Fault;
use crate::line::Line;
use crate::prefix::Prefix;
use crate::table::Table;
use std::alloc::{AllocError, Global};
use std::fmt::Write;
use std::net::Ipv4Addr;

/// Applies a line to a table: a question is a fault here. A line with a fault changes nothing.
pub fn change(alloc: Global, table: &mut Table, line: Line<'_>) -> Result<(), Fault>
    ensures ok { (lines : List Line) → IsAfter lines table.old
        → OnOk result (IsAfter (line.entry ∷ lines) table.new) }
    ensures err { (lines : List Line) → IsAfter lines table.old
        → OnErr result (IsAfter lines table.new) }
{
    match line {
        Line::Blank => Ok(()),
        Line::Add(prefix, hop) => add(alloc, table, &prefix, hop),
        Line::Withdraw(prefix) => withdraw(table, &prefix),
        Line::Decide(_) | Line::Within(_) => Err(Fault::NotAChange),
    }
}

/// Applies a line, and appends its answer to the text: one line for an address, and for a prefix a
/// line for each route within it. A line with a fault changes no route.
pub fn answer(
    alloc: Global,
    table: &mut Table,
    line: Line<'_>,
    text: &mut String,
) -> Result<(), Fault>
    ensures ok { (lines : List Line) → IsAfter lines table.old
        → OnOk result (IsAfter (line.entry ∷ lines) table.new) }
    ensures err { (lines : List Line) → IsAfter lines table.old
        → OnErr result (IsAfter lines table.new) }
{
    match line {
        Line::Decide(address) => Ok(write_decision(table, address, text)?),
        Line::Within(prefix) => Ok(write_within(table, &prefix, text)?),
        _ => change(alloc, table, line),
    }
}

fn add(alloc: Global, table: &mut Table, prefix: &Prefix, hop: &str) -> Result<(), Fault>
    ensures ok { OnOk result ((other : List Bool)
        → hop_at table.new other ≡ cond (same_prefix (prefix_bits prefix.now) other)
        (Some hop.now) (hop_at table.old other)) }
    ensures err { OnErr result
        ((other : List Bool) → hop_at table.new other ≡ hop_at table.old other) }
{
    let hop = String::from_str(alloc, hop)?;
    table.add(prefix, hop)?;
    Ok(())
}

/// Removes a route. It is a fault where there is none.
fn withdraw(table: &mut Table, prefix: &Prefix) -> Result<(), Fault>
    ensures ok { OnOk result ((other : List Bool)
        → hop_at table.new other ≡ cond (same_prefix (prefix_bits prefix.now) other)
        None (hop_at table.old other)) }
    ensures err { OnErr result
        ((other : List Bool) → hop_at table.new other ≡ hop_at table.old other) }
{
    if table.withdraw(prefix)? {
        Ok(())
    } else {
        Err(Fault::NoSuchRoute)
    }
}

fn write_decision(table: &Table, address: Ipv4Addr, text: &mut String) -> Result<(), AllocError> {
    match table.decide(address) {
        Some(decision) => {
            let (hop, prefix) = (decision.hop, decision.prefix);
            writeln!(text, "{address} {hop} {prefix}")
        }
        None => writeln!(text, "{address} no route"),
    }
}

fn write_within(table: &Table, prefix: &Prefix, text: &mut String) -> Result<(), AllocError> {
    let mut is_none = true;
    for route in table.within(prefix) {
        let (bits, hop) = route?;
        let prefix = Prefix::of_bits(bits.as_ref());
        writeln!(text, "{prefix} {hop}")?;
        is_none = false;
    }
    if is_none {
        writeln!(text, "{prefix} no route")?;
    }
    Ok(())
}
