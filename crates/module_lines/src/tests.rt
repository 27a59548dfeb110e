ghost use Rattle.std.specs.Prelude.{IfOk, IsUtf8};
ghost use Rattle.scan_model.specs.Utf8Names.{HaveUtf8Names};

use crate::RecordBuilder;
use scan_model::{Bytes, Keyword, Kind, ModuleFault, NoMemory, Record, Text, Tok};
use std::alloc::Global;
use std::test::Fail;

/// A token whose kind its first byte tells.
fn token(alloc: Global, word: &str) -> Result<Tok, NoMemory>
    ensures { IfOk result (λ tok. IsUtf8 tok.text) }
{
    let bytes = word.as_bytes();
    let kind = match bytes {
        [b'"', ..] => Kind::Str,
        [b'<', .., b'>'] => Kind::Header,
        [b'a'..=b'z' | b'A'..=b'Z', ..] => Kind::Ident,
        _ => Kind::Punct,
    };
    Ok(Tok {
        kind,
        text: Bytes::copy(alloc, bytes)?,
        space: true,
        line: 1,
    })
}

fn tokens(alloc: Global, words: &str) -> Result<Vec<Tok>, NoMemory>
    ensures { IfOk result (λ toks. HaveUtf8Names toks.items) }
{
    let mut toks = Vec::new(alloc);
    'words: for word in words.split_whitespace() {
        toks.push(token(alloc, word)?)?;
    }
    Ok(toks)
}

/// Takes one line, as it is written.
fn take(
    alloc: Global,
    builder: &mut RecordBuilder,
    line: &str,
) -> Result<Result<(), ModuleFault>, NoMemory> {
    let (exported, line) = match line.strip_prefix("export ") {
        Some(rest) => (true, rest),
        None => (false, line),
    };
    match line.strip_prefix("module") {
        Some(rest) => builder.take(exported, Keyword::Module, tokens(alloc, rest)?.as_slice()),
        None => {
            let rest = line.strip_prefix("import").unwrap_or("");
            builder.take(exported, Keyword::Import, tokens(alloc, rest)?.as_slice())
        }
    }
}

/// What the record provides, a `!` if it is an interface, and what it requires.
fn shown(alloc: Global, record: &Record) -> Result<Vec<u8>, NoMemory> {
    let mut text = Vec::new(alloc);
    if let Some(provided) = &record.provides {
        text.extend_from_slice(provided.name.as_slice())?;
        if provided.interface {
            text.push(b'!')?;
        }
    }
    for name in record.required.as_slice() {
        text.push(b' ')?;
        text.extend_from_slice(name.as_slice())?;
    }
    Ok(text)
}

/// The record of the lines up to the first that is refused, and the refusal.
fn read(alloc: Global, lines: &str) -> Result<(Vec<u8>, Option<ModuleFault>), NoMemory> {
    let Some(name) = Text::read(alloc, b"u")? else {
        return Err(NoMemory);
    };
    let mut builder = RecordBuilder::new(alloc, &name, &name)?;
    let mut fault = None;
    for line in lines.split('\n') {
        if let Err(met) = take(alloc, &mut builder, line)? {
            fault = Some(met);
            break;
        }
    }
    Ok((shown(alloc, &builder.end())?, fault))
}

#[test]
fn lines_give_the_record(rt: HostRuntime) -> Result<(), Fail> {
    use ModuleFault::{BadModuleLine, HeaderUnit, PartitionOutsideModule, SecondModule};
    for (lines, want, fault) in [
        ("export module M ;", "M!", None),
        ("export module M . N : P . Q ;", "M.N:P.Q!", None),
        ("module M : P ;", "M:P", None),
        ("module M ;", " M", None),
        ("module ;\nmodule : private ;", "", None),
        ("module M : private ;", "M:private", None),
        ("import a . b ;\nexport import a ;", " a.b a", None),
        ("import a [ [ x ] ] ;\nimport b <: c : d ;", " a b", None),
        ("import a ; junk\nimport a ;", " a", None),
        (
            "module M : P ;\nimport : Q ;\nimport : private ;",
            "M:P M:Q M:private",
            None,
        ),
        (
            "module M ;\nimport M ;\nexport import : Q . R ;",
            " M M:Q.R",
            None,
        ),
        (
            "import a ;\nimport : Q ;",
            " a",
            Some(PartitionOutsideModule),
        ),
        ("import : private ;", "", Some(PartitionOutsideModule)),
        ("import a", "", Some(BadModuleLine)),
        ("import ;", "", Some(BadModuleLine)),
        ("import a . ;", "", Some(BadModuleLine)),
        ("import a : P ;", "", Some(BadModuleLine)),
        ("export module ;", "", Some(BadModuleLine)),
        ("export module : private ;", "", Some(BadModuleLine)),
        ("module : private [ [ x ] ] ;", "", Some(BadModuleLine)),
        ("module : P ;", "", Some(BadModuleLine)),
        ("module M ;\nmodule M ;", " M", Some(SecondModule)),
        (
            "export module M ;\nmodule N : P ;",
            "M!",
            Some(SecondModule),
        ),
        ("import <h> ;", "", Some(HeaderUnit)),
        ("import \"h\"", "", Some(HeaderUnit)),
        ("import < h > ;", "", Some(HeaderUnit)),
        ("module <h> ;", "", Some(BadModuleLine)),
    ] {
        let (got, met) = read(rt.alloc(), lines).ok().ok_or("memory")?;
        assert_eq!(rt; got.as_slice(), want.as_bytes(), "{lines}");
        assert!(rt; met == fault, "{lines}");
    }
    Ok(())
}
