/// The most bytes that one file may have, the database included: 32 MiB. A longer one is refused.
pub const FILE_LIMIT: usize = 33_554_432;
