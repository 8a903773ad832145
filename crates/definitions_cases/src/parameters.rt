//! What upstreams, sets of upstreams and shovels say.
use crate::objects::text_or_none;
use amqp_props::{Properties, SourceAt, TargetAt};
use anyhow::Result;
use fed_defs::{Overrides, ParameterDef, ParameterValue, ShovelDef, UpstreamDef, Uris};

/// A parameter, by its component.
pub fn tell_parameter(rt: &HostRuntime, parameter: &ParameterDef) -> Result<()> {
    let name = parameter.name.as_str();
    match &parameter.value {
        ParameterValue::Upstream(upstream) => {
            println!(rt; "  upstream {name}")?;
            tell_upstream(rt, upstream)
        }
        ParameterValue::Set(members) => {
            println!(rt; "  set {name}")?;
            for member in members.as_slice() {
                println!(rt; "    member {}", member.upstream.as_str())?;
                tell_overrides(rt, &member.own)?;
            }
            Ok(())
        }
        ParameterValue::Shovel(shovel) => {
            println!(rt; "  shovel {name}")?;
            tell_shovel(rt, shovel)
        }
    }
}

/// The URIs, each with what it says.
fn tell_uris(rt: &HostRuntime, key: &str, uris: &Uris) -> Result<()> {
    for read in uris.as_slice() {
        let uri = read.uri();
        println!(rt;
            "    {key} {} host {:?} port {} virtual host {:?}",
            read.text(),
            uri.host,
            uri.port,
            uri.vhost
        )?;
    }
    Ok(())
}

/// What is set of the keys that the member of a set may override.
fn tell_overrides(rt: &HostRuntime, own: &Overrides) -> Result<()> {
    println!(rt;
        "    ack-mode {:?} prefetch-count {:?} reconnect-delay {:?} max-hops {:?} exchange {} queue {}",
        own.mode,
        own.prefetch,
        own.delay,
        own.max_hops,
        text_or_none(&own.exchange),
        text_or_none(&own.queue)
    )?;
    Ok(())
}

/// An upstream.
pub fn tell_upstream(rt: &HostRuntime, upstream: &UpstreamDef) -> Result<()> {
    tell_uris(rt, "uri", &upstream.uris)?;
    tell_overrides(rt, &upstream.own)
}

/// What a shovel takes from.
fn tell_source(rt: &HostRuntime, source: &SourceAt) -> Result<()> {
    match source {
        SourceAt::Queue(queue) => println!(rt; "    from queue {}", queue.as_str())?,
        SourceAt::Exchange { name, key } => {
            println!(rt;
                "    from exchange {} key {:?}",
                name.as_str(),
                key.as_str()
            )?
        }
        _ => println!(rt; "    from the end of a federation link")?,
    }
    Ok(())
}

/// What a shovel publishes to.
fn tell_target(rt: &HostRuntime, target: &TargetAt) -> Result<()> {
    match target {
        TargetAt::Queue(queue) => println!(rt; "    to queue {}", queue.as_str())?,
        TargetAt::Exchange { name, key } => {
            println!(rt;
                "    to exchange {} key {}",
                name.as_str(),
                text_or_none(key)
            )?
        }
        TargetAt::Original => println!(rt; "    to the exchange and key of each message")?,
        _ => println!(rt; "    to the end of a federation link")?,
    }
    Ok(())
}

/// The properties that a shovel sets.
fn tell_properties(rt: &HostRuntime, props: &Properties) -> Result<()> {
    println!(rt;
        "    content-type {} delivery-mode {:?} priority {:?} timestamp {:?} app-id {}",
        text_or_none(&props.content_type),
        props.delivery_mode,
        props.priority,
        props.timestamp,
        text_or_none(&props.app_id)
    )?;
    Ok(())
}

/// A shovel.
pub fn tell_shovel(rt: &HostRuntime, shovel: &ShovelDef) -> Result<()> {
    tell_uris(rt, "src-uri", &shovel.sources)?;
    tell_uris(rt, "dest-uri", &shovel.targets)?;
    tell_source(rt, &shovel.source_at)?;
    tell_target(rt, &shovel.target_at)?;
    println!(rt;
        "    ack-mode {:?} src-prefetch-count {} reconnect-delay {} src-delete-after {:?} add-forward-headers {}",
        shovel.mode, shovel.prefetch, shovel.delay, shovel.delete_after, shovel.stamp
    )?;
    tell_properties(rt, &shovel.props)
}
