//! Cases of whole definitions files.
use crate::case::Case;
use crate::objects::tell_vhost;
use anyhow::Result;
use defs_file::Definitions;
use defs_values::DefFault;
use std::fs;

/// Reads an export that lies in a file of the case's name, and tells all that it holds.
pub fn tell_file(rt: &HostRuntime, case: &Case<'_>) -> Result<()> {
    let octets = fs::read(rt, case.name)?;
    match Definitions::read(rt.alloc(), &octets, case.rest) {
        Ok(definitions) => {
            println!(rt; "{}:", case.name)?;
            tell(rt, &definitions)
        }
        Err(fault) => tell_fault(rt, case.name, &fault),
    }
}

/// What definitions hold.
fn tell(rt: &HostRuntime, definitions: &Definitions) -> Result<()> {
    let broker = &definitions.broker;
    println!(rt;
        "  broker {} cluster {} passed over {} inert {}",
        broker.name.as_str(),
        broker.cluster.as_str(),
        definitions.passed_over,
        definitions.inert
    )?;
    for vhost in broker.vhosts.as_slice() {
        tell_vhost(rt, vhost)?;
    }
    println!(rt; "  kept {}", broker.kept.as_str())?;
    Ok(())
}

/// Reads a file that is one line, and tells the counts and what is kept.
pub fn tell_kept(rt: &HostRuntime, case: &Case<'_>) -> Result<()> {
    match Definitions::read(rt.alloc(), case.rest.as_bytes(), "b") {
        Ok(definitions) => {
            println!(rt;
                "{}: passed over {} inert {} kept {}",
                case.name,
                definitions.passed_over,
                definitions.inert,
                definitions.broker.kept.as_str()
            )?;
            Ok(())
        }
        Err(fault) => tell_fault(rt, case.name, &fault),
    }
}

/// Reads a file that is one line, and tells why it is refused, and where.
pub fn tell_refusal(rt: &HostRuntime, case: &Case<'_>) -> Result<()> {
    match Definitions::read(rt.alloc(), case.rest.as_bytes(), "b") {
        Ok(_) => {
            println!(rt; "{}: not refused", case.name)?;
            Ok(())
        }
        Err(fault) => tell_fault(rt, case.name, &fault),
    }
}

/// The reason and the place.
fn tell_fault(rt: &HostRuntime, name: &str, fault: &DefFault) -> Result<()> {
    let (reason, path) = match fault {
        DefFault::NotJson => ("json", "-"),
        DefFault::Shape(at) => ("shape", at.as_str()),
        DefFault::Float(at) => ("float", at.as_str()),
        DefFault::BadPattern(at) => ("pattern", at.as_str()),
        DefFault::UnknownVhost(at) => ("vhost", at.as_str()),
        DefFault::Limit(at) => ("limit", at.as_str()),
        DefFault::Memory => ("memory", "-"),
    };
    println!(rt; "{name}: {reason} {path}")?;
    Ok(())
}
