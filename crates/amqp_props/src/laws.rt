//! What the definition of content headers alone says.

ghost use Rattle.amqp_props.specs.Laws.{HeadersAreOne};

/// A payload is the content header of one size and of one list of properties at most.
pub fn headers_are_one()
    ensures { HeadersAreOne }
{}
