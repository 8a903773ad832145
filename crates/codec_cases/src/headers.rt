//! Cases of `amqp_props`.
use crate::case::Case;
use crate::links::shovel;
use amqp_props::{
    DeleteAfter, FieldTable, Message, Octets, Properties, header_len, property, read_header,
    write_header,
};
use anyhow::Result;
use field_tables::{Table, Text};
use std::alloc::{AllocError, Global};

/// Does the case.
pub fn run(rt: &(impl Print + AllocGlobal), case: &Case<'_>) -> Result<()> {
    match case.asked {
        "row" => {
            let row = property(case.word(0)?.parse::<usize>()?);
            println!(rt; "{}: {row:?}", case.name)?;
            Ok(())
        }
        "message" => message(rt, case),
        "link" => link(rt, case),
        _ => read(rt, case),
    }
}

/// Reads a content header and writes it again.
fn read(rt: &(impl Print + AllocGlobal), case: &Case<'_>) -> Result<()> {
    let alloc = rt.alloc();
    match read_header(alloc, &case.octets(alloc, 0)?) {
        Ok((size, props)) => {
            let mut out = Vec::new(alloc);
            write_header(size, &props, &mut out)?;
            let again = hex::encode(alloc, out.as_slice())?;
            println!(rt;
                "{}: body {size}, {} octets, mode {:?}, {again}",
                case.name,
                header_len(&props),
                props.delivery_mode
            )?;
        }
        Err(fault) => println!(rt; "{}: {fault:?}", case.name)?,
    }
    Ok(())
}

/// A message to the exchange x.
fn message_of(
    alloc: Global,
    key: &str,
    props: Properties,
    body: Vec<u8>,
) -> Result<Message, AllocError> {
    let exchange = Text::from_str(alloc, "x")?;
    let key = Text::from_str(alloc, key)?;
    let body = Octets::new(alloc, body)?;
    Ok(Message {
        exchange,
        key,
        props,
        body,
    })
}

/// Whether a message's clone equals it.
fn is_cloned(message: &Message) -> Result<bool, AllocError> {
    let copy = message.clone()?;
    Ok(copy == *message)
}

/// Whether a message's headers are this table, whose clone they are compared with.
fn has_headers(alloc: Global, message: &Message, table: Table) -> Result<bool, AllocError> {
    let headers = FieldTable::new(alloc, table)?;
    let copy = headers.clone()?;
    Ok(message.props.headers.as_ref() == Some(&copy))
}

/// The message of a case: the properties of a content header, a key and a body.
fn read_message(alloc: Global, case: &Case<'_>) -> Result<Message> {
    let (_, props) = read_header(alloc, &case.octets(alloc, 0)?)?;
    let body = case.octets(alloc, 2)?;
    Ok(message_of(alloc, case.word(1)?, props, body)?)
}

/// A message and its clone, and its headers as a field table.
fn message(rt: &(impl Print + AllocGlobal), case: &Case<'_>) -> Result<()> {
    let alloc = rt.alloc();
    let message = read_message(alloc, case)?;
    let is_cloned = is_cloned(&message)?;
    let has_headers = has_headers(alloc, &message, case.table(alloc, 3)?)?;
    let body = hex::encode(alloc, message.body.as_slice())?;
    println!(rt;
        "{}: {is_cloned} {} {body} {has_headers}",
        case.name,
        message.key.as_str()
    )?;
    Ok(())
}

/// A link's description, its clone, and one that is another.
fn link(rt: &(impl Print + AllocGlobal), case: &Case<'_>) -> Result<()> {
    let spec = shovel(rt.alloc())?;
    let mut copy = spec.clone()?;
    let is_copy = copy == spec;
    copy.delete_after = DeleteAfter::Never;
    println!(rt; "{}: {is_copy} {}", case.name, copy == spec)?;
    Ok(())
}
