//! What is drawn of a wire.

/// What is drawn of a wire, column by column: bands and a path of width 1, or values and a path of a wider wire.
#[derive(Clone, Copy, PartialEq, Eq)]
pub enum SvgDrawing {
    Bands,
    Bits,
    Values,
    Words,
}
