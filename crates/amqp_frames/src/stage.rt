/// How far a splitter has come in its stream.
#[derive(Clone, Copy, Debug, PartialEq, Eq)]
pub enum Stage {
    /// In the protocol header, of which so many octets came, less than 8.
    Header { came: usize },
    /// Behind the header, among frames.
    Frames,
    /// At a fault.
    Failed,
}
