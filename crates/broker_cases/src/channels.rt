//! Cases of the deliveries of a channel.

ghost use Rattle.std.specs.Prelude.{◌≡◌, true, IfOk};
ghost use Rattle.broker_channels.specs.Tags.{is_known};

use crate::line::{Line, answer, done, is_call};
use anyhow::{Result, bail};
use broker_channels::{Channel, SettleFault};
use std::alloc::{AllocError, Global};

/// A channel with two consumers, 1 and 2, whose windows are set apart, and a window of its own.
fn opened(alloc: Global, first: u16, second: u16, window: u16) -> Result<Channel, AllocError>
    ensures first { IfOk result (λ channel. is_known 1 channel ≡ true) }
    ensures second { IfOk result (λ channel. is_known 2 channel ≡ true) }
{
    let mut channel = Channel::new(alloc);
    channel.qos(first, false);
    channel.consumer(1)?;
    channel.qos(second, false);
    channel.consumer(2)?;
    channel.qos(window, true);
    Ok(channel)
}

/// Prints the copies that an acknowledgement settles, or why it is refused.
fn settle(
    rt: &(impl Print + AllocGlobal),
    text: &str,
    channel: &mut Channel,
    tag: u64,
    multiple: bool,
) -> Result<()>
    requires first { is_known 1 channel.old ≡ true }
    requires second { is_known 2 channel.old ≡ true }
    ensures first { is_known 1 channel.new ≡ true }
    ensures second { is_known 2 channel.new ≡ true }
{
    let mut copies = Vec::new(rt.alloc());
    match channel.settle(tag, multiple, &mut copies) {
        Ok(()) => {
            print!(rt; "{text}:")?;
            for copy in copies.iter() {
                print!(rt; " {copy}")?;
            }
            println!(rt; "")?;
        }
        Err(SettleFault::BadTag(tag)) => println!(rt; "{text}: bad tag {tag}")?,
        Err(SettleFault::Memory) => bail!("out of memory"),
    }
    Ok(())
}

/// Makes a call.
fn call(
    rt: &(impl Print + AllocGlobal),
    text: &str,
    line: &Line<'_>,
    channel: &mut Channel,
) -> Result<()>
    requires first { is_known 1 channel.old ≡ true }
    requires second { is_known 2 channel.old ≡ true }
    ensures first { is_known 1 channel.new ≡ true }
    ensures second { is_known 2 channel.new ≡ true }
{
    let call = line.call;
    if call == "room" {
        answer(rt, text, channel.has_room(1))
    } else if call == "room2" {
        answer(rt, text, channel.has_room(2))
    } else if call == "deliver" {
        answer(rt, text, channel.deliver(1, line.number(0)?)?)
    } else if call == "deliver2" {
        answer(rt, text, channel.deliver(2, line.number(0)?)?)
    } else if call == "got" {
        channel.reserve()?;
        answer(rt, text, channel.got(line.number(0)?)?)
    } else if call == "settle" {
        settle(rt, text, channel, line.number(0)?, line.has("multiple"))
    } else {
        bail!("no such call of a channel")
    }
}

/// Does the cases; a line `channel` begins one, with the windows of two consumers, and that of the channel.
pub fn run(rt: &(impl Print + AllocGlobal), cases: &str) -> Result<()> {
    let alloc = rt.alloc();
    let mut channel = opened(alloc, 0, 0, 0)?;
    for text in cases.split('\n') {
        if !is_call(text) {
            continue;
        }
        let line = Line::read(alloc, text)?;
        if line.call == "channel" {
            channel = opened(alloc, line.short(0)?, line.short(1)?, line.short(2)?)?;
            done(rt, text)?;
        } else {
            call(rt, text, &line, &mut channel)?;
        }
    }
    Ok(())
}
