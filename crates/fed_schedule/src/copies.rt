//! Copies of events, for lines that repeat one.
ghost use Rattle.std.specs.Prelude.{◌≡◌, ◌++◌, IfOk, OnOk, replicate};

use fed_journal::event::Event;
use std::alloc::AllocError;

/// A copy of an event, by the table of its variants: what of each is cloned, and after `;` what is `Copy`.
macro_rules! copied {
    ($event:ident: $($variant:ident { $($part:ident),*; $($plain:ident),* })*) => {
        match $event {
            $(Event::$variant { $($part,)* $($plain,)* } => {
                $(let $part = $part.clone()?;)*
                Ok(Event::$variant { $($part,)* $($plain: *$plain,)* })
            })*
        }
    };
}

/// A copy of an event. A message's body is shared.
fn copy_event(event: &Event) -> Result<Event, AllocError>
    ensures { IfOk result (λ copy. copy ≡ event.now) }
{
    copied!(event:
        DeclareQueue { place, queue; client, options }
        DeclareExchange { place, exchange; client, shape }
        Bind { place, binding; client }
        Unbind { place, binding; client }
        Publish { place, message; client }
        Consume { place, queue, tag; client, no_ack, prefetch }
        Cancel { place, tag; client }
        Deliver { place, tag; client }
        Get { place, queue; client, no_ack }
        Ack { place; client, copy }
        Reject { place; client, copy }
        Requeue { place; client, copy }
        Purge { place, queue; client }
        Close { place; client }
        Flush { broker; }
        SetShovel { place, name, shovel; }
        Open { link; }
        Take { link; }
        Send { link; }
        Accept { link; }
        Confirm { link; }
        Note { link; }
        Settle { link; }
        Show {;}
    )
}

/// Appends so many copies of the event, each with the number of its line.
pub(crate) fn push_copies(
    events: &mut Vec<(u32, Event)>,
    number: u32,
    count: u16,
    event: &Event,
) -> Result<(), AllocError>
    ensures { OnOk result (events.new.items ≡ events.old.items ++ replicate count (number, event.now)) }
{
    for _copy in 0..count {
        events.push((number, copy_event(event)?))?;
    }
    Ok(())
}
