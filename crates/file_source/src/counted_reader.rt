ghost use Rattle.std.specs.Prelude.{◌≡◌, ◌+◌, ◌-◌, ◌^◌, ◌<◌};
ghost use Rattle.std.specs.Io.{ReadsAtMost};
ghost use Rattle.std.specs.Io.KnownBytes.{ReadConsumes};

use std::io;
use std::io::Read;

/// A reader that is read through this type alone, which counts the turns.
#[derive(Drop)]
pub(crate) struct CountedReader<R: Read + Drop> {
    reader: R,
    turns: usize,
}

impl<R: Read + Drop> CountedReader<R> {
    pub(crate) fn new(reader: R) -> CountedReader<R>
        ensures over { result.reader ≡ reader }
        ensures unread { result.turns ≡ 0 }
    {
        CountedReader { reader, turns: 0 }
    }

    /// One turn: what the reader gives at once.
    pub(crate) fn read(&mut self, buf: &mut [u8]) -> io::Result<usize>
        requires { self.old.turns < 2 ^ 64 - 1 }
        ensures counted { self.new.turns ≡ self.old.turns + 1 }
        ensures bound { ReadsAtMost result buf.new }
        ensures bytes { ReadConsumes (R.remaining self.old.reader) (R.remaining self.new.reader) result buf.new }
    {
        self.turns += 1;
        self.reader.read(buf)
    }
}
