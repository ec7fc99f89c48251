/// What the hall, the front that the server's threads share under one lock, last answered a side of a
/// connection: its reading or its writing thread (`docs/model.md`, "The hall").
#[derive(Clone, Copy, PartialEq, Eq)]
pub enum LastAnswer {
    /// The side was served, or has asked nothing yet.
    Served,
    /// The hall has no such connection, or none any more.
    Gone,
    /// The hall is stopped. A writing thread learns of it only when its box is empty.
    Stopped,
    /// A book, a count of the hall, is at its limit, 2^63 - 8192. A writing thread learns of it only when its
    /// box is empty.
    Spent,
}
