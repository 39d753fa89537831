//! The layout of a picture.
use crate::columns::Columns;
use crate::mark::Charset;
use crate::numerals::Numerals;

/// The columns of a picture, the characters that it is drawn with, how its levels are written, and the width of the names before its columns, in
/// characters.
#[derive(Clone, Copy)]
pub struct DiagramLayout {
    pub columns: Columns,
    pub charset: Charset,
    pub numerals: Numerals,
    pub margin: usize,
}
