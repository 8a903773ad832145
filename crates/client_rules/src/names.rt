//! Names that clients can't use.
ghost use Rattle.std.specs.Prelude.{◌≡◌};
ghost use Rattle.client_rules.specs.Names as names;

/// Whether the name is one that belongs to links (RabbitMQ, Federated Exchanges: the upstream queue's name).
pub fn is_reserved(name: &str) -> bool
    ensures { result ≡ names.is_reserved name.now }
{
    name.as_bytes().starts_with(b"federation: ")
}

/// Whether the name is one of the broker's own, other than a generated one.
fn is_broker_name(name: &str) -> bool
    ensures { result ≡ names.is_broker_name name.now }
{
    name.as_bytes().starts_with(b"amq.") && !name.as_bytes().starts_with(b"amq.gen-")
}

/// Whether the broker refuses a client to declare a queue of that name; `stands` says that it is there.
pub fn is_refused_queue(name: &str, stands: bool) -> bool
    ensures { result ≡ names.is_refused_queue name.now stands }
{
    name.is_empty() || is_reserved(name) || (is_broker_name(name) && !stands)
}

/// Whether the broker refuses a client to declare an exchange of that name; `stands` says that it is there.
pub fn is_refused_exchange(name: &str, stands: bool) -> bool
    ensures { result ≡ names.is_refused_exchange name.now stands }
{
    name.is_empty() || is_reserved(name) || (name.as_bytes().starts_with(b"amq.") && !stands)
}

/// Whether no client can bind what has this name.
pub fn is_unbindable(name: &str) -> bool
    ensures { result ≡ names.is_unbindable name.now }
{
    name.is_empty() || is_reserved(name)
}
