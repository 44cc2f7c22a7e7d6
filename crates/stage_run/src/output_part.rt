//! The kinds of outputs.

/// Where the output's packets go.
pub enum OutputPart<K> {
    /// A sink takes the bytes of the live packets.
    Stream(K),
    /// Nothing is written; the cells are counted all the same.
    Discard,
}
