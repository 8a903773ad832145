//! The forms of lines.

/// What a client does with a copy that it holds.
#[derive(Clone, Copy)]
pub enum Settlement {
    Ack,
    Reject,
    Requeue,
}

/// What a client does with the copies of queues.
#[derive(Clone, Copy)]
pub enum ClientAction {
    Consume,
    Cancel,
    Deliver,
    Get,
    Settle(Settlement),
    Purge,
    Close,
}

/// Whether a client makes a binding or ends it.
#[derive(Clone, Copy)]
pub enum BindingAction {
    Bind,
    Unbind,
}

/// What a link does.
#[derive(Clone, Copy)]
pub enum LinkAction {
    Open,
    Take,
    Send,
    Accept,
    Confirm,
    Note,
    Settle,
}

/// The form of a line, which its first word names.
#[derive(Clone, Copy)]
pub enum Keyword {
    Broker,
    Declare,
    Binding(BindingAction),
    Publish,
    Flush,
    Shovel,
    Client(ClientAction),
    Link(LinkAction),
    Show,
}
