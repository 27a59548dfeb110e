ghost use Rattle.std.specs.Prelude.{◌≡◌, ◌≤◌, ◌++◌, IfOk, OnOk, map};
ghost use Rattle.std.specs.List.{range_with_len};
ghost use Rattle.big_gen.specs.MadeTexts.{made_files, made_header, made_unit, header_text, parent_text, own_text, header_of, unit_text, condition_text, module_text, needs_text, function_text, include_text, import_text};

use file_source::MadeFile;
use path_search::normal;
use scan_model::{Bytes, Items, NoMemory};
use std::alloc::Global;

/// The files of the made tree of `n` units, up to 4,096: 64 headers, and then the units.
pub fn made_files(alloc: Global, n: u32) -> Result<Items<MadeFile>, NoMemory>
    requires units { n ≤ 4096 }
    ensures { IfOk result (λ files. files ≡ made_files n) }
{
    let mut files = Vec::new(alloc);
    push_headers(alloc, &mut files)?;
    push_units(alloc, &mut files, n)?;
    Ok(Items::of_vec(files))
}

fn push_headers(alloc: Global, files: &mut Vec<MadeFile>) -> Result<(), NoMemory>
    ensures { OnOk result (files.new.items ≡ files.old.items ++ map made_header (range_with_len 1 64)) }
{
    for header in 1..65u32 {
        files.push(made_header(alloc, header)?)?;
    }
    Ok(())
}

fn push_units(alloc: Global, files: &mut Vec<MadeFile>, n: u32) -> Result<(), NoMemory>
    requires units { n ≤ 4096 }
    ensures { OnOk result (files.new.items ≡ files.old.items ++ map made_unit (range_with_len 1 n)) }
{
    for unit in 1..n + 1 {
        files.push(made_unit(alloc, unit)?)?;
    }
    Ok(())
}

#[tactic(auto, unfolding(crate::specs::MadeTexts::made_header))]
fn made_header(alloc: Global, header: u32) -> Result<MadeFile, NoMemory>
    ensures { IfOk result (λ file. file ≡ made_header header) }
{
    let path = format!(in alloc; "/m/h{header}.h")?;
    let text = header_text(alloc, header)?;
    Ok(MadeFile {
        path: normal(alloc, path.as_bytes())?,
        text,
    })
}

fn header_text(alloc: Global, header: u32) -> Result<Bytes, NoMemory>
    ensures { IfOk result (λ text. text ≡ header_text header) }
{
    let mut text = Vec::from_slice(alloc, b"#pragma once\n")?;
    push_parent(alloc, &mut text, header)?;
    push_own(alloc, &mut text, header)?;
    Ok(Bytes::of_vec(text))
}

fn push_parent(alloc: Global, text: &mut Vec<u8>, header: u32) -> Result<(), NoMemory>
    ensures { OnOk result (text.new.items ≡ text.old.items ++ parent_text header) }
{
    if 1 < header {
        push_include(alloc, text, header / 2)?;
    }
    Ok(())
}

fn push_own(alloc: Global, text: &mut Vec<u8>, header: u32) -> Result<(), NoMemory>
    ensures { OnOk result (text.new.items ≡ text.old.items ++ own_text header) }
{
    let macro_line = format!(in alloc; "#define H{header} 1\n")?;
    text.extend_from_slice(macro_line.as_bytes())?;
    let function_line = format!(in alloc; "int f{header}(int);\n")?;
    Ok(text.extend_from_slice(function_line.as_bytes())?)
}

fn push_include(alloc: Global, text: &mut Vec<u8>, header: u32) -> Result<(), NoMemory>
    ensures { OnOk result (text.new.items ≡ text.old.items ++ include_text header) }
{
    let line = format!(in alloc; "#include \"h{header}.h\"\n")?;
    Ok(text.extend_from_slice(line.as_bytes())?)
}

#[tactic(auto, unfolding(crate::specs::MadeTexts::made_unit))]
fn made_unit(alloc: Global, unit: u32) -> Result<MadeFile, NoMemory>
    requires small { unit ≤ 4096 }
    ensures { IfOk result (λ file. file ≡ made_unit unit) }
{
    let path = format!(in alloc; "/m/u{unit}.cppm")?;
    let text = unit_text(alloc, unit)?;
    Ok(MadeFile {
        path: normal(alloc, path.as_bytes())?,
        text,
    })
}

fn unit_text(alloc: Global, unit: u32) -> Result<Bytes, NoMemory>
    requires small { unit ≤ 4096 }
    ensures { IfOk result (λ text. text ≡ unit_text unit) }
{
    let header = 7 * unit % 64 + 1;
    let mut text = Vec::new(alloc);
    push_include(alloc, &mut text, header)?;
    push_condition(alloc, &mut text, header)?;
    push_module(alloc, &mut text, unit)?;
    push_needs(alloc, &mut text, unit)?;
    push_function(alloc, &mut text, unit)?;
    Ok(Bytes::of_vec(text))
}

fn push_condition(alloc: Global, text: &mut Vec<u8>, header: u32) -> Result<(), NoMemory>
    ensures { OnOk result (text.new.items ≡ text.old.items ++ condition_text header) }
{
    let line = format!(in alloc; "#if defined(H{header}) && H1\n")?;
    Ok(text.extend_from_slice(line.as_bytes())?)
}

fn push_module(alloc: Global, text: &mut Vec<u8>, unit: u32) -> Result<(), NoMemory>
    ensures { OnOk result (text.new.items ≡ text.old.items ++ module_text unit) }
{
    let lines = format!(in alloc; "export module m{unit};\n#endif\n")?;
    Ok(text.extend_from_slice(lines.as_bytes())?)
}

fn push_needs(alloc: Global, text: &mut Vec<u8>, unit: u32) -> Result<(), NoMemory>
    ensures { OnOk result (text.new.items ≡ text.old.items ++ needs_text unit) }
{
    if 1 < unit {
        push_import(alloc, text, unit / 2)?;
    }
    Ok(())
}

fn push_function(alloc: Global, text: &mut Vec<u8>, unit: u32) -> Result<(), NoMemory>
    ensures { OnOk result (text.new.items ≡ text.old.items ++ function_text unit) }
{
    let line = format!(in alloc; "int g{unit}();\n")?;
    Ok(text.extend_from_slice(line.as_bytes())?)
}

fn push_import(alloc: Global, text: &mut Vec<u8>, unit: u32) -> Result<(), NoMemory>
    ensures { OnOk result (text.new.items ≡ text.old.items ++ import_text unit) }
{
    let line = format!(in alloc; "import m{unit};\n")?;
    Ok(text.extend_from_slice(line.as_bytes())?)
}
