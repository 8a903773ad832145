//! Cases of the links that the definitions of brokers ask for: each line names the files of the brokers `a`, `b` and `c`.
use crate::case::Case;
use amqp_props::{LinkSpec, Place, StartState};
use anyhow::{Context, Result};
use defs_file::Definitions;
use fed_defs::{BrokerConfig, Config, Sequence};
use std::fs;
use upstream_sets::links_of;

/// Does the case.
pub fn run(rt: &HostRuntime, case: &Case<'_>) -> Result<()> {
    let config = config_of(rt, case.rest)?;
    println!(rt; "{}:", case.name)?;
    match links_of(rt.alloc(), &config) {
        Ok(links) if links.len() > 20 => println!(rt; "  {} links", links.len())?,
        Ok(links) => {
            for link in &links {
                tell_link(rt, link)?;
            }
        }
        Err(fault) => println!(rt; "  {fault:?}")?,
    }
    Ok(())
}

/// The brokers of these files.
fn config_of(rt: &HostRuntime, files: &str) -> Result<Config> {
    let mut names = "abc".split("").skip(1);
    let mut brokers = Vec::new(rt.alloc());
    for file in files.split(' ') {
        let name = names.next().context("a fourth broker")?;
        brokers.push(broker_of(rt, file, name)?)?;
    }
    Ok(Config {
        brokers: Sequence::new(brokers),
    })
}

/// The broker of this name and file; `-` stands for a broker without definitions.
fn broker_of(rt: &HostRuntime, file: &str, name: &str) -> Result<BrokerConfig> {
    let octets = if file == "-" {
        Vec::from_slice(rt.alloc(), b"{}")?
    } else {
        fs::read(rt, file)?
    };
    let Definitions { broker, .. } = Definitions::read(rt.alloc(), &octets, name)?;
    Ok(broker)
}

fn state_of(start: StartState) -> &'static str {
    match start {
        StartState::Start => "start",
        StartState::SelfLink => "self",
        StartState::NoBroker => "no-broker",
        StartState::NameTooLong => "name-too-long",
    }
}

/// A link: its name, its state, its ends and what it says.
fn tell_link(rt: &HostRuntime, link: &LinkSpec) -> Result<()> {
    println!(rt; "  {} {}", link.name.as_str(), state_of(link.start))?;
    tell_place(rt, "from", &link.source)?;
    tell_place(rt, "to", &link.target)?;
    println!(rt;
        "    {:?} ack-mode {:?} prefetch-count {} reconnect-delay {} max-hops {}",
        link.kind, link.mode, link.prefetch, link.delay, link.max_hops
    )?;
    Ok(())
}

fn tell_place(rt: &HostRuntime, end: &str, place: &Option<Place>) -> Result<()> {
    match place {
        Some(place) => println!(rt;
            "    {end} broker {} virtual host {:?}",
            place.broker,
            place.vhost.as_str()
        )?,
        None => println!(rt; "    {end} no place")?,
    }
    Ok(())
}
