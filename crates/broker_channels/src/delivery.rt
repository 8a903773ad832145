/// The number of a copy, over all queues.
pub type CopyNo = u64;

/// A consumer of the channel, as contracts see it.
#[derive(Clone, Copy, Debug)]
pub struct Consumer {
    /// Its number on the channel.
    pub number: u32,
    /// The most unacknowledged deliveries that it may have; 0 is no limit.
    pub window: u16,
}

/// An unacknowledged delivery, as contracts see it.
#[derive(Clone, Copy, Debug)]
pub struct Delivery {
    /// Its delivery tag.
    pub tag: u64,
    /// The copy that was delivered.
    pub copy: CopyNo,
    /// The consumer that it went to; None where it was given to basic.get.
    pub consumer: Option<u32>,
}
