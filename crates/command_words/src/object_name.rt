ghost use Rattle.std.specs.Prelude.{◌≡◌, IfOk, Some};
ghost use Rattle.std.specs.Path.{rsplit_once};
ghost use Rattle.command_words.specs.Commands.{last_segment, stem, object_of};

use scan_model::{NoMemory, Text};
use std::alloc::Global;

/// The file's last segment with `.o` for what follows its last `.`.
pub(crate) fn object_name(alloc: Global, file: &str) -> Result<Text, NoMemory>
    ensures { IfOk result (λ name. name ≡ object_of file.now) }
{
    let mut name = String::from_str(alloc, stem(last_segment(file)))?;
    name.push_str(".o")?;
    Ok(Text::of_string(name))
}

fn last_segment(file: &str) -> &str
    ensures { result.now ≡ last_segment file.entry.now }
{
    match file.rsplit_once('/') {
        Some((_, name)) => name,
        None => file,
    }
}

fn stem(name: &str) -> &str
    ensures { result.now ≡ stem name.entry.now }
{
    match name.rsplit_once('.') {
        Some((stem, _)) => stem,
        None => name,
    }
}
