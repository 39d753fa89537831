//! The options of a timing diagram.

/// The options of a timing diagram, as they were given.
#[derive(Drop)]
pub struct PictureWords<'a> {
    /// The names of the wires to show; none for all wires. If causes are drawn, the wire that they lead to comes first.
    pub wires: Vec<&'a str>,
    /// The time of the level whose causes are drawn; `None` for no causes.
    pub causes: Option<u64>,
    /// The first time to show, in units, 0 if none is given.
    pub from: u64,
    /// The end of the times to show, in units, not included; 2^64 - 1 if none is given.
    pub to: u64,
    /// The greatest number of columns, 72 if none is given.
    pub columns: u32,
    /// Whether to write only ASCII characters.
    pub ascii: bool,
    /// Whether to write levels in hexadecimal.
    pub hex: bool,
    /// Whether to write an SVG file.
    pub svg: bool,
    /// Whether to write WaveJSON.
    pub json: bool,
    /// The label of the times in an SVG file, `time in units` if none is given.
    pub unit: &'a str,
}
