use world_types::Bytes;

/// How far the body of a call is.
#[derive(Debug, Drop)]
pub enum Row {
    Running,
    /// It ended, and this is its reply.
    Done(Bytes),
}

/// What a server does when a call comes.
#[derive(Debug, Drop)]
pub enum Arrival {
    /// The body begins.
    Begin,
    /// The reply is sent again.
    Resend(Bytes),
    Nothing,
}
