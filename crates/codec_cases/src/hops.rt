//! Cases of `hop_headers`.
ghost use Rattle.std.specs.Prelude.{IfOk};
ghost use Rattle.hop_headers.specs.Stamps.{IsExchange, IsQueue};

use crate::case::Case;
use anyhow::Result;
use field_tables::{Table, Text, write_table};
use hop_headers::{
    HopEntry, HopObject, PlaceName, gate_passes, propagate, received_from, stamp_exchange,
    stamp_queue,
};
use std::alloc::{AllocError, Global};

/// The virtual host `/` of a cluster.
fn place(alloc: Global, cluster: &str) -> Result<PlaceName, AllocError> {
    Ok(PlaceName {
        cluster: Text::from_str(alloc, cluster)?,
        vhost: Text::from_str(alloc, "/")?,
    })
}

fn exchange_entry(alloc: Global, cluster: &str, exchange: &str) -> Result<HopEntry, AllocError>
    ensures { IfOk result (λ e. IsExchange e.object) }
{
    Ok(HopEntry {
        place: place(alloc, cluster)?,
        object: HopObject::Exchange(Text::from_str(alloc, exchange)?),
        redelivered: false,
        visits: 0,
    })
}

fn queue_entry(alloc: Global, cluster: &str, queue: &str) -> Result<HopEntry, AllocError>
    ensures { IfOk result (λ e. IsQueue e.object) }
{
    Ok(HopEntry {
        place: place(alloc, cluster)?,
        object: HopObject::Queue(Text::from_str(alloc, queue)?),
        redelivered: false,
        visits: 0,
    })
}

/// Whether two tables are one, as a case's line says it.
fn print_table(
    rt: &(impl Print + AllocGlobal),
    case: &Case<'_>,
    found: &Table,
    wanted: &Table,
) -> Result<()> {
    println!(rt;
        "{}: {}",
        case.name,
        if *found == *wanted {
            "as wanted"
        } else {
            "another"
        }
    )?;
    Ok(())
}

/// Does the case: the words are a table, a cluster, an exchange, a queue or a limit, and the table that is wanted.
pub fn run(rt: &(impl Print + AllocGlobal), case: &Case<'_>) -> Result<()> {
    let alloc = rt.alloc();
    let table = case.table(alloc, 0)?;
    match case.asked {
        "gate" => {
            let limit = case.word(2)?.parse::<u32>()?;
            println!(rt;
                "{}: {}",
                case.name,
                gate_passes(limit, case.word(1)?, "/", &table)
            )?;
            Ok(())
        }
        "entries" => entries(rt, case, &table),
        "stamp-exchange" => {
            let entry = exchange_entry(alloc, case.word(1)?, case.word(2)?)?;
            let stamped = stamp_exchange(alloc, &table, &entry)?;
            print_table(rt, case, &stamped, &case.table(alloc, 3)?)
        }
        "stamp-queue" => {
            let entry = queue_entry(alloc, case.word(1)?, case.word(2)?)?;
            let stamped = stamp_queue(alloc, &table, &entry)?;
            print_table(rt, case, &stamped, &case.table(alloc, 3)?)
        }
        _ => propagated(rt, case, &table),
    }
}

/// The entries of a table's `x-received-from`.
fn entries(rt: &(impl Print + AllocGlobal), case: &Case<'_>, table: &Table) -> Result<()> {
    let Some(entries) = received_from(rt.alloc(), table)? else {
        println!(rt; "{}: none", case.name)?;
        return Ok(());
    };
    for entry in &entries {
        let (kind, name) = match &entry.object {
            HopObject::Exchange(name) => ("exchange", name.as_str()),
            HopObject::Queue(name) => ("queue", name.as_str()),
            HopObject::Neither => ("neither", ""),
        };
        println!(rt;
            "{}: {} {} {kind} {name} {} {}",
            case.name,
            entry.place.cluster.as_str(),
            entry.place.vhost.as_str(),
            entry.redelivered,
            entry.visits
        )?;
    }
    Ok(())
}

/// The arguments at cluster a for a binding of exchange x of cluster b.
fn propagated(rt: &(impl Print + AllocGlobal), case: &Case<'_>, table: &Table) -> Result<()> {
    let alloc = rt.alloc();
    let (upstream, downstream) = (place(alloc, "a")?, place(alloc, "b")?);
    let limit = case.word(1)?.parse::<u16>()?;
    match propagate(alloc, table, &upstream, &downstream, "x", u32::from(limit))? {
        Some(found) => print_table(rt, case, &found, &case.table(alloc, 2)?),
        None => {
            println!(rt; "{}: goes no further", case.name)?;
            Ok(())
        }
    }
}
