//! Cases of `field_tables`.
use crate::case::Case;
use anyhow::Result;
use field_tables::{Text, read_table, table_len, write_table};
use std::collections::HashMap;

/// Does the case.
pub fn run(rt: &(impl Print + AllocGlobal), case: &Case<'_>) -> Result<()> {
    let alloc = rt.alloc();
    match case.asked {
        "read" => read(rt, case),
        "get" => {
            let table = case.table(alloc, 0)?;
            let found = table.get(case.word(1)?);
            println!(rt; "{}: {:?}", case.name, found)?;
            Ok(())
        }
        "same" => {
            let (one, other) = (case.table(alloc, 0)?, case.table(alloc, 1)?);
            println!(rt; "{}: {}", case.name, one == other)?;
            Ok(())
        }
        _ => texts(rt, case),
    }
}

/// Reads a table, and writes it and its clone again.
fn read(rt: &(impl Print + AllocGlobal), case: &Case<'_>) -> Result<()> {
    let alloc = rt.alloc();
    let octets = case.octets(alloc, 0)?;
    match read_table(alloc, &octets) {
        Ok((table, taken)) => {
            let mut out = Vec::new(alloc);
            write_table(&table, &mut out)?;
            let again = hex::encode(alloc, out.as_slice())?;
            let is_copy = table.clone()? == table;
            println!(rt;
                "{}: {taken} of {} octets, {} long, copied {is_copy}, {again}",
                case.name,
                octets.len(),
                table_len(&table)
            )?;
        }
        Err(fault) => println!(rt; "{}: {fault:?}", case.name)?,
    }
    Ok(())
}

/// A text in its forms, and as the key of a map.
fn texts(rt: &(impl Print + AllocGlobal), case: &Case<'_>) -> Result<()> {
    let alloc = rt.alloc();
    let word = case.word(0)?;
    let text = Text::new(alloc, String::from_str(alloc, word)?)?;
    let other = Text::from_str(alloc, case.word(1)?)?;
    let same = text == other;
    let mut places = HashMap::new(alloc);
    places.insert(text.clone()?, 1u8)?;
    println!(rt;
        "{}: {} {same} {}",
        case.name,
        text.as_str(),
        places.contains_key(&other)
    )?;
    Ok(())
}
