/// How the program ends: its exit status.
#[derive(Clone, Copy, Debug, PartialEq, Eq)]
pub struct Status(pub u8);

impl Status {
    /// All was done.
    pub const DONE: Status = Status(0);
    /// The words are no command's.
    pub const NO_COMMAND: Status = Status(2);
    /// The text is bad: the one line that is written says where.
    pub const BAD_TEXT: Status = Status(3);
    /// The source failed.
    pub const READ_FAILED: Status = Status(4);
    /// The sink failed.
    pub const WRITE_FAILED: Status = Status(5);
    /// The text is longer than it may be.
    pub const TOO_LONG: Status = Status(6);
    /// Memory ran out.
    pub const OUT_OF_MEMORY: Status = Status(9);
}
