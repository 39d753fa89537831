//! Laws of paths: they determine the cells that they are drawn from.
ghost use Rattle.mp_picture.specs.svg.ColumnLaws.{BitsTell, WordsTell};
ghost use Rattle.mp_picture.specs.svg.RowLaws.{BitRowTells, WordRowTells};

/// The path of a wire of width 1 in a column determines whether it has no event there, one or more, and if any, its level at the end of the column.
pub fn bits_tell()
    ensures { BitsTell }
{}

/// The path of a wider wire in a column determines whether it has an event there.
pub fn words_tell()
    ensures { WordsTell }
{}

/// The path of a wire of width 1 determines its cells.
pub fn bit_row_tells()
    ensures { BitRowTells }
{}

/// The path and the values of a wider wire determine which of its columns have an event, and its level at the end of each.
pub fn word_row_tells()
    ensures { WordRowTells }
{}
