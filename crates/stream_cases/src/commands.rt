//! Cases of `amqp_content`.
use crate::case::Case;
use amqp_content::{Assembler, Command, MAX_BODY};
use amqp_frames::Splitter;
use amqp_methods::Method;
use anyhow::Result;

/// Prints a command: its channel, the routing key of a publish, and delivery mode and body of its content.
pub fn print_command(rt: &(impl Print + AllocGlobal), command: &Command) -> Result<()> {
    println!(rt; "  channel {}", command.channel)?;
    if let Method::BasicPublish { routing_key, .. } = &command.method {
        println!(rt; "  key {routing_key}")?;
    }
    if let Some((props, body)) = &command.content {
        let body = hex::encode(rt.alloc(), body.as_slice())?;
        println!(rt; "  mode {:?} body {body}", props.delivery_mode)?;
    }
    Ok(())
}

/// The octets of each word are a frame; what is answered to each.
pub fn run(rt: &(impl Print + AllocGlobal), case: &Case<'_>) -> Result<()> {
    let alloc = rt.alloc();
    if case.asked == "limit" {
        println!(rt; "{}: {MAX_BODY}", case.name)?;
        return Ok(());
    }
    let mut splitter = Splitter::new(alloc, false);
    let mut assembler = Assembler::new(alloc);
    for place in 0..case.words().len() {
        let mut frames = Vec::new(alloc);
        splitter.feed(&case.octets(alloc, place)?, &mut frames)?;
        for frame in frames {
            match assembler.feed(frame) {
                Ok(Some(command)) => {
                    println!(rt; "{}: command", case.name)?;
                    print_command(rt, &command)?;
                }
                Ok(None) => println!(rt; "{}: part", case.name)?,
                Err(fault) => println!(rt; "{}: {fault:?}", case.name)?,
            }
        }
    }
    Ok(())
}
