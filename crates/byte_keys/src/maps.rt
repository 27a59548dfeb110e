//! Maps whose keys are bytes.

ghost use Rattle.byte_keys.specs.Maps.{PutChangesOne, EntriesFindAlike};

/// A put gives one key its value, and each other key keeps what it had.
pub fn put_changes_one<V>()
    ensures { PutChangesOne V }
{}

/// A list of the entries, each with its key's bytes, finds what the map finds.
pub fn entries_find_alike<V, W>()
    ensures { EntriesFindAlike V W }
{}
