//! What a seat at the table of claims knows. It exists in proofs alone.

/// What a seat knows. No value of it is made.
pub struct View {
    /// The threads whose claims this seat answers for; none once it was given back.
    pub threads: u64,
    /// The item that it has claimed and not yet given back.
    pub held: Option<u64>,
    /// Each item before this one was claimed by somebody.
    pub past: u64,
}
