/// What came of reading a path.
#[derive(Clone, Copy, Debug, PartialEq, Eq)]
pub enum Outcome {
    /// There is a file, and all its bytes came.
    Present,
    /// There is no file.
    Absent,
    /// A call of the read failed.
    Failed,
    /// More bytes came than a file may have.
    Big,
    /// The read found no memory.
    NoMemory,
}
