//! What cells say of a wire, and levels in a row.
ghost use Rattle.mp_picture.specs.CellLaws.{StaysWithout, ChangesAtOne, TellsEvents, TellsLevels};
ghost use Rattle.mp_picture.specs.Levels.{LevelsApart};

/// If a cell has no event, the wire has the cell's level in each unit of its column.
pub fn stays_without()
    ensures { StaysWithout }
{}

/// If a cell has one event, there is one time in its column up to which the wire has the level before it, and from which it has the cell's.
pub fn changes_at_one()
    ensures { ChangesAtOne }
{}

/// A cell has an event exactly if the wire's level differs from that a unit before in one of its column's units, the picture's first left out.
pub fn tells_events()
    ensures { TellsEvents }
{}

/// The cells of a wire determine its level at the end of each column.
pub fn tells_levels()
    ensures { TellsLevels }
{}

/// No byte of a level's text is one of a mark, so that neither is taken for the other.
pub fn levels_apart()
    ensures { LevelsApart }
{}
