//! Cases of single values, which are JSON behind the name of what they are read as.
use crate::case::Case;
use crate::parameters::{tell_shovel, tell_upstream};
use anyhow::Result;
use defs_values::{ValueFault, read_shovel, read_upstream};
use serde_json::Value;

/// Does the case.
pub fn run(rt: &HostRuntime, case: &Case<'_>) -> Result<()> {
    let (asked, json) = case.cut()?;
    let value = Value::from_str(rt.alloc(), json)?;
    match asked {
        "upstream" => match read_upstream(rt.alloc(), &value) {
            Ok(upstream) => {
                println!(rt; "{}:", case.name)?;
                tell_upstream(rt, &upstream)
            }
            Err(fault) => tell_fault(rt, case.name, &fault),
        },
        _ => match read_shovel(rt.alloc(), &value) {
            Ok(shovel) => {
                println!(rt; "{}:", case.name)?;
                tell_shovel(rt, &shovel)
            }
            Err(fault) => tell_fault(rt, case.name, &fault),
        },
    }
}

/// The key that is refused.
fn tell_fault(rt: &HostRuntime, name: &str, fault: &ValueFault) -> Result<()> {
    match fault {
        ValueFault::Key(key) => println!(rt; "{name}: key {}", key.as_str())?,
        ValueFault::Memory => println!(rt; "{name}: memory")?,
    }
    Ok(())
}
