//! The state of reading a head.
ghost use Rattle.std.specs.Prelude.{◌≤◌};

/// An unfinished head, with the number of its line feeds.
#[derive(Drop)]
pub struct HeadPart {
    pub bytes: Vec<u8>,
    pub feeds: u32,
    pub ghost few: { feeds ≤ 66 },
}

/// The result of reading one byte of a head.
#[derive(Drop)]
pub enum HeadStep {
    /// The head isn't finished.
    More(HeadPart),
    /// The head is finished and has this text.
    Ended(Vec<u8>),
    /// The head exceeds a limit.
    Overlong,
}
