//! What virtual hosts hold.
use crate::parameters::tell_parameter;
use anyhow::Result;
use fed_defs::{BindingDef, PolicyDef, SharedPattern, VhostConfig};
use field_tables::Text;

/// All that a virtual host holds, a line each.
pub fn tell_vhost(rt: &HostRuntime, vhost: &VhostConfig) -> Result<()> {
    println!(rt; "  vhost {}", vhost.name.as_str())?;
    for exchange in vhost.exchanges.as_slice() {
        println!(rt;
            "  exchange {} {:?} durable {} internal {}",
            exchange.name.as_str(),
            exchange.kind,
            exchange.durable,
            exchange.internal
        )?;
    }
    for queue in vhost.queues.as_slice() {
        println!(rt;
            "  queue {} quorum {} durable {} exclusive {} auto-delete {}",
            queue.name.as_str(),
            queue.quorum,
            queue.options.durable,
            queue.options.exclusive,
            queue.options.auto_delete
        )?;
    }
    for binding in vhost.bindings.as_slice() {
        tell_binding(rt, binding)?;
    }
    tell_settings(rt, vhost)
}

fn tell_settings(rt: &HostRuntime, vhost: &VhostConfig) -> Result<()> {
    for policy in vhost.policies.as_slice() {
        tell_policy(rt, policy)?;
    }
    for parameter in vhost.parameters.as_slice() {
        tell_parameter(rt, parameter)?;
    }
    Ok(())
}

/// A binding and its arguments.
fn tell_binding(rt: &HostRuntime, binding: &BindingDef) -> Result<()> {
    let kind = if binding.to_exchange {
        "exchange"
    } else {
        "queue"
    };
    println!(rt;
        "  binding {} {kind} {} key {:?}",
        binding.source.as_str(),
        binding.dest.as_str(),
        binding.key.as_str()
    )?;
    for (name, value) in &binding.args.as_table().pairs {
        println!(rt; "    argument {name} {value:?}")?;
    }
    Ok(())
}

/// A text that may be missing.
pub fn text_or_none(text: &Option<Text>) -> &str {
    match text {
        Some(text) => text.as_str(),
        None => "-",
    }
}

fn pattern_or_none(pattern: &Option<SharedPattern>) -> &str {
    match pattern {
        Some(pattern) => pattern.text(),
        None => "-",
    }
}

fn tell_policy(rt: &HostRuntime, policy: &PolicyDef) -> Result<()> {
    println!(rt;
        "  policy {} {} {:?} priority {} upstream {} set {} pattern {}",
        policy.name.as_str(),
        policy.pattern.text(),
        policy.apply,
        policy.priority,
        text_or_none(&policy.upstream),
        text_or_none(&policy.set),
        pattern_or_none(&policy.upstream_pattern)
    )?;
    Ok(())
}
