// How a listing ended.

/// How a search for answers ended.
#[derive(Clone, Copy, Debug, PartialEq, Eq)]
pub enum Ending {
    /// So many answers as asked for were printed.
    Stopped,
    /// All were printed.
    All,
    /// There is none.
    NoAnswer,
    /// So many conflicts as allowed were met, or no id below 2^64 is left.
    Limit,
    /// The output failed.
    WriteFault,
    /// Memory could not be had.
    Memory,
}

/// How a search for answers ended, and how many of their blocks were printed whole.
#[derive(Clone, Copy, Debug, PartialEq, Eq)]
pub struct Summary {
    pub ending: Ending,
    pub answers: u64,
}
