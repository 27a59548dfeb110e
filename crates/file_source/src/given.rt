ghost use Rattle.std.specs.Prelude.{◌≡◌};
ghost use Rattle.file_source.specs.CameOf.{IsCaused, came_of_bytes, outcome_of, bytes_of};

use scan_model::{Bytes, FILE_LIMIT, Outcome};

/// What came of one read.
#[derive(Drop)]
pub(crate) enum Came {
    /// All bytes of a file that isn't too big.
    Present(Bytes),
    Absent,
    /// One call of the read failed, after so many bytes.
    Failed(usize),
    /// So many bytes came, which are too many.
    Big(usize),
    /// There was no memory for more than so many bytes.
    NoMemory(usize),
}

impl Came {
    /// What came where these are all bytes.
    pub(crate) fn of_bytes(bytes: Bytes) -> Came
        ensures value { result ≡ came_of_bytes bytes }
        ensures caused { IsCaused result }
    {
        let len = bytes.as_slice().len();
        if len <= FILE_LIMIT {
            Came::Present(bytes)
        } else {
            Came::Big(len)
        }
    }

    pub(crate) fn outcome(&self) -> Outcome
        ensures { result ≡ outcome_of self.now }
    {
        match self {
            Came::Present(_) => Outcome::Present,
            Came::Absent => Outcome::Absent,
            Came::Failed(_) => Outcome::Failed,
            Came::Big(_) => Outcome::Big,
            Came::NoMemory(_) => Outcome::NoMemory,
        }
    }

    pub(crate) fn bytes(&self) -> &[u8]
        ensures { result.now ≡ bytes_of self.now }
    {
        match self {
            Came::Present(bytes) => bytes.as_slice(),
            _ => &[],
        }
    }
}

/// What one read of a path gave. Only the calls of a source make one.
#[derive(Drop)]
pub struct Given {
    path: Bytes,
    came: Came,
    ghost caused: { IsCaused came },
}

impl Given {
    pub(crate) fn new(path: Bytes, came: Came) -> Given
        requires { IsCaused came }
        ensures path { result.path ≡ path }
        ensures came { result.came ≡ came }
        ensures caused { IsCaused result.came }
    {
        Given { path, came }
    }

    pub fn outcome(&self) -> Outcome
        ensures value { result ≡ outcome_of self.now.came }
        ensures caused { IsCaused self.now.came }
    {
        self.came.outcome()
    }

    /// The file's bytes where it is Present, and none otherwise.
    pub fn bytes(&self) -> &[u8]
        ensures { result.now ≡ bytes_of self.now.came }
    {
        self.came.bytes()
    }
}
