//! A link's description, for its cases.
use amqp_props::{
    AckMode, DeleteAfter, LinkKind, LinkSpec, Place, SourceAt, StartState, TargetAt, read_header,
};
use anyhow::Result;
use field_tables::Text;
use std::alloc::{AllocError, Global};

/// The content header of an empty body without properties.
const EMPTY: [u8; 14] = [0, 60, 0, 0, 0, 0, 0, 0, 0, 0, 0, 0, 0, 0];

fn place(alloc: Global) -> Result<Place, AllocError> {
    Ok(Place {
        broker: 0,
        cluster: Text::from_str(alloc, "a")?,
        vhost: Text::from_str(alloc, "/")?,
    })
}

/// A shovel from a queue to an exchange.
pub fn shovel(alloc: Global) -> Result<LinkSpec> {
    let (_, props) = read_header(alloc, &EMPTY)?;
    Ok(LinkSpec {
        name: Text::from_str(alloc, "s/a/s")?,
        kind: LinkKind::Shovel,
        start: StartState::NoBroker,
        owner: place(alloc)?,
        source: Some(place(alloc)?),
        target: None,
        source_at: SourceAt::Queue(Text::from_str(alloc, "q")?),
        target_at: TargetAt::Exchange {
            name: Text::from_str(alloc, "x")?,
            key: None,
        },
        mode: AckMode::OnConfirm,
        prefetch: 1000,
        delay: 5,
        max_hops: 1,
        delete_after: DeleteAfter::Count(3),
        stamp: false,
        props,
    })
}
