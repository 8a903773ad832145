//! The unacknowledged deliveries by rising tag, searched by halves.

ghost use Rattle.std.specs.Prelude.{◌≡◌, ◌==◌, ◌&&◌, ◌<◌, ◌≤◌, true, false, length, slice_get, IfNone, IfSome};
ghost use Rattle.std.specs.List.{AllWithin};
ghost use Rattle.std.specs.Option.{OnSome, option_map_or};
ghost use Rattle.broker_channels.specs.declared.delivery.Delivery.{Delivery};
ghost use Rattle.broker_channels.specs.Tags.{Rises, is_outstanding};
ghost use Rattle.broker_channels.specs.Held.{IsSpan};

use crate::delivery::Delivery;
use std::collections::VecDeque;

/// Where the deliveries that an acknowledgement settles begin, and how many they are; None exactly where the tag isn't outstanding.
pub fn span(deliveries: &VecDeque<Delivery>, tag: u64, multiple: bool) -> Option<(usize, usize)>
    requires { Rises deliveries.now.items }
    ensures none { IfNone result (is_outstanding tag multiple deliveries.now.items ≡ false) }
    ensures outstanding { OnSome result (is_outstanding tag multiple deliveries.now.items ≡ true) }
    ensures span { IfSome result (λ span. IsSpan tag multiple deliveries.now.items span.0 span.1) }
{
    if multiple && tag == 0 {
        return Some((0, deliveries.len()));
    }
    given_span(deliveries, tag, multiple)
}

/// The same for an acknowledgement that names a delivery.
fn given_span(deliveries: &VecDeque<Delivery>, tag: u64, multiple: bool) -> Option<(usize, usize)>
    requires rises { Rises deliveries.now.items }
    requires given { ((tag == 0) && multiple) ≡ false }
    ensures none { IfNone result (is_outstanding tag multiple deliveries.now.items ≡ false) }
    ensures outstanding { OnSome result (is_outstanding tag multiple deliveries.now.items ≡ true) }
    ensures span { IfSome result (λ span. IsSpan tag multiple deliveries.now.items span.0 span.1) }
{
    let place = first_from(deliveries, tag);
    if !is_at(deliveries, place, tag) {
        return None;
    }
    if multiple {
        Some((0, place + 1))
    } else {
        Some((place, 1))
    }
}

/// Whether the delivery at the place has the tag.
fn is_at(deliveries: &VecDeque<Delivery>, place: usize, tag: u64) -> bool
    ensures { result ≡ option_map_or (λ (delivery : Delivery). delivery.tag == tag) (slice_get deliveries.now.items place) false }
{
    match deliveries.get(place) {
        Some(delivery) => delivery.tag == tag,
        None => false,
    }
}

/// How many deliveries have a tag below this one.
fn first_from(deliveries: &VecDeque<Delivery>, tag: u64) -> usize
    requires { Rises deliveries.now.items }
    ensures bound { result ≤ length deliveries.now.items }
    ensures below { AllWithin (λ delivery. delivery.tag < tag) deliveries.now.items 0 result }
    ensures from { AllWithin (λ delivery. tag ≤ delivery.tag) deliveries.now.items result (length deliveries.now.items) }
{
    deliveries.partition_point(|delivery| delivery.tag < tag)
}
