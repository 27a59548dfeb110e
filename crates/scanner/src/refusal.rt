ghost use Rattle.std.specs.Prelude.{◌≡◌, IfOk, string_bytes};

use crate::status::Status;
use scan_model::NoMemory;
use std::alloc::Global;

/// Why a run ends before any command is scanned.
#[derive(Clone, Copy)]
pub(crate) enum Refusal {
    /// The words aren't those of the usage line.
    Usage,
    /// There is no database.
    DbAbsent,
    /// A call of the database's read failed.
    DbFailed,
    /// The database has more bytes than a file may have.
    DbBig,
    /// The database is no JSON text.
    NotJson,
    /// The database is no JSON array.
    NotArray,
    /// The entry of this number, from 1, is the first that isn't well-formed.
    BadEntry(u64),
    /// The database has more entries than it may have.
    TooMany,
}

impl Refusal {
    ghost use Rattle.scanner.specs.Refusals.{refused_status, text_of};

    pub(crate) fn status(self) -> Status
        ensures { result ≡ refused_status self }
    {
        match self {
            Refusal::Usage => Status::Usage,
            Refusal::DbAbsent | Refusal::DbFailed | Refusal::DbBig => Status::DbUnread,
            Refusal::NotJson | Refusal::NotArray | Refusal::BadEntry(_) => Status::BadDb,
            Refusal::TooMany => Status::TooMany,
        }
    }

    /// The line that is put to the error output.
    pub(crate) fn text(self, alloc: Global) -> Result<String, NoMemory>
        ensures { IfOk result (λ text. string_bytes text ≡ text_of self) }
    {
        let text = match self {
            Refusal::Usage => "usage: scan_deps --compilation-database=FILE [options]\n",
            Refusal::DbAbsent => "database unread: Absent\n",
            Refusal::DbFailed => "database unread: Failed\n",
            Refusal::DbBig => "database unread: Big\n",
            Refusal::NotJson => "bad database: not JSON\n",
            Refusal::NotArray => "bad database: not an array\n",
            Refusal::BadEntry(number) => {
                return Ok(format!(in alloc; "bad database: entry {number}\n")?);
            }
            Refusal::TooMany => "too many commands\n",
        };
        Ok(String::from_str(alloc, text)?)
    }
}
