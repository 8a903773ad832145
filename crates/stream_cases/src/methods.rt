//! Cases of `amqp_methods`.
use crate::case::Case;
use amqp_methods::{METHODS, Method, find, read_method, write_method};
use anyhow::Result;

/// Does the case.
pub fn run(rt: &(impl Print + AllocGlobal), case: &Case<'_>) -> Result<()> {
    match case.asked {
        "row" => row(rt, case),
        _ => read(rt, case),
    }
}

/// The row of a class and an id.
fn row(rt: &(impl Print + AllocGlobal), case: &Case<'_>) -> Result<()> {
    let class = case.word(0)?.parse::<u16>()?;
    let id = case.word(1)?.parse::<u16>()?;
    match find(&METHODS, class, id).and_then(|place| METHODS.get(place)) {
        Some(row) => {
            let letters = String::from_utf8_lossy(rt.alloc(), row.letters())?;
            println!(rt; "{}: {letters}", case.name)?;
        }
        None => println!(rt; "{}: none", case.name)?,
    }
    Ok(())
}

/// Reads a method and writes it again.
fn read(rt: &(impl Print + AllocGlobal), case: &Case<'_>) -> Result<()> {
    let alloc = rt.alloc();
    match read_method(alloc, &case.octets(alloc, 0)?) {
        Ok(method) => {
            let mut out = Vec::new(alloc);
            write_method(&method, &mut out)?;
            let again = hex::encode(alloc, out.as_slice())?;
            println!(rt; "{}: {again}", case.name)?;
            print_declare(rt, &method)?;
        }
        Err(fault) => println!(rt; "{}: {fault:?}", case.name)?,
    }
    Ok(())
}

/// The queue and the bits of a queue.declare.
fn print_declare(rt: &(impl Print + AllocGlobal), method: &Method) -> Result<()> {
    if let Method::QueueDeclare {
        queue,
        passive,
        durable,
        exclusive,
        auto_delete,
        no_wait,
        ..
    } = method
    {
        println!(rt;
            "  {queue} passive {passive} durable {durable} exclusive {exclusive} auto-delete {auto_delete} no-wait {no_wait}"
        )?;
    }
    Ok(())
}
