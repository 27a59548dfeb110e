ghost use Rattle.std.specs.Prelude.{◌≡◌};

/// How a run ends.
#[derive(Clone, Copy)]
pub(crate) enum Status {
    /// Every command has its record.
    Fine,
    /// Some command ended without a record.
    SomeFailed,
    /// The words are refused.
    Usage,
    /// The database can't be read.
    DbUnread,
    /// The database isn't well-formed.
    BadDb,
    /// The database has too many entries.
    TooMany,
    /// A sink failed.
    SinkFault,
    /// Memory was wanting.
    NoMemory,
}

impl Status {
    ghost use Rattle.scanner.specs.Statuses.{number};

    /// The program's exit status.
    pub(crate) fn number(self) -> u8
        ensures { result ≡ number self }
    {
        match self {
            Status::Fine => 0,
            Status::SomeFailed => 1,
            Status::Usage => 2,
            Status::DbUnread => 3,
            Status::BadDb => 4,
            Status::TooMany => 5,
            Status::SinkFault => 6,
            Status::NoMemory => 7,
        }
    }
}
