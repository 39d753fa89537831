//! The codes that come only at seats.
ghost use Rattle.std.specs.Prelude.{◌≡◌};
ghost use Rattle.mp_request.specs.explain.SeatCodes.{name_of, number_of};

/// The reason why a line is refused at a seat of a live desk, and nowhere else.
#[derive(Clone, Copy, PartialEq, Eq)]
pub enum SeatCode {
    /// Only designers can edit.
    NotADesigner,
    /// A seat doesn't know what an edit computed again.
    NoWork,
    /// The desk can't keep an edit.
    NotKept,
}

impl SeatCode {
    /// The number of the code, 22 to 24.
    pub fn number(self) -> u32
        ensures { result ≡ number_of self }
    {
        match self {
            SeatCode::NotADesigner => 22,
            SeatCode::NoWork => 23,
            SeatCode::NotKept => 24,
        }
    }

    /// The name of the code.
    pub fn name(self) -> &'static str
        ensures { result.now ≡ name_of self }
    {
        match self {
            SeatCode::NotADesigner => "NotADesigner",
            SeatCode::NoWork => "NoWork",
            SeatCode::NotKept => "NotKept",
        }
    }
}
