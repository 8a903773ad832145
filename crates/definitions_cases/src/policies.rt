//! Cases of patterns and policies.
use crate::case::Case;
use anyhow::{Context, Result};
use fed_defs::SharedPattern;
use policy_core::{Apply, ObjectKind, Pattern, PolicyText, choose};
use std::alloc::Global;
use std::rc::Rc;

/// Does the case.
pub fn run(rt: &HostRuntime, case: &Case<'_>) -> Result<()> {
    let (asked, rest) = case.cut()?;
    match asked {
        "apply" => tell_apply(rt, case.name, apply_of(rest)),
        "found" => tell_found(rt, case.name, rest),
        _ => tell_choice(rt, case.name, rest),
    }
}

fn apply_of(word: &str) -> Apply {
    match word {
        "all" => Apply::All,
        "exchanges" => Apply::Exchanges,
        "queues" => Apply::Queues,
        "classic_queues" => Apply::Classic,
        "quorum_queues" => Apply::Quorum,
        _ => Apply::Streams,
    }
}

fn kind_of(word: &str) -> ObjectKind {
    match word {
        "exchange" => ObjectKind::Exchange,
        "quorum" => ObjectKind::Quorum,
        _ => ObjectKind::Classic,
    }
}

/// Which objects such policies apply to.
fn tell_apply(rt: &HostRuntime, name: &str, apply: Apply) -> Result<()> {
    println!(rt;
        "{name}: exchange {} classic {} quorum {}",
        apply.applies_to(ObjectKind::Exchange),
        apply.applies_to(ObjectKind::Classic),
        apply.applies_to(ObjectKind::Quorum)
    )?;
    Ok(())
}

/// Whether a pattern is found in the word behind it, alone and where copies share it.
fn tell_found(rt: &HostRuntime, name: &str, rest: &str) -> Result<()> {
    let alloc = rt.alloc();
    let (text, word) = rest.split_once(' ').context("a pattern without a name")?;
    match Pattern::build(alloc, text) {
        Ok(pattern) => {
            let found = pattern.found(alloc, word)?;
            let shared = SharedPattern::new(alloc, pattern)?;
            let copy = shared.clone()?;
            println!(rt;
                "{name}: {} found {found} {} {}",
                copy.text(),
                copy.found(alloc, word)?,
                copy.share()?.text()
            )?;
        }
        Err(fault) => println!(rt; "{name}: {fault:?}")?,
    }
    Ok(())
}

/// The policy that words separated by commas say: name, pattern, `apply-to`, priority.
fn policy_of(alloc: Global, words: &str) -> Result<PolicyText> {
    let mut words = words.split(',');
    let name = words.next().context("a policy without a name")?;
    let pattern = words.next().context("a policy without a pattern")?;
    let apply = apply_of(words.next().context("a policy without apply-to")?);
    let priority = words.next().context("a policy without a priority")?;
    Ok(PolicyText {
        name: String::from_str(alloc, name)?,
        pattern: Rc::new(alloc, Pattern::build(alloc, pattern)?)?,
        apply,
        priority: priority.parse()?,
    })
}

/// Which of the policies applies to an object: a kind, a name, and the policies.
fn tell_choice(rt: &HostRuntime, name: &str, rest: &str) -> Result<()> {
    let mut words = rest.split(' ');
    let kind = kind_of(words.next().context("a choice without a kind")?);
    let object = words.next().context("a choice without a name")?;
    let mut policies = Vec::new(rt.alloc());
    for word in words {
        policies.push(policy_of(rt.alloc(), word)?)?;
    }
    let chosen = choose(rt.alloc(), &policies, kind, object)?;
    println!(rt; "{name}: {chosen:?}")?;
    Ok(())
}
