use crate::text;
use scan_model::{
    Bytes, CommandFault, Fault, FaultKind, Items, Place, Provided, Record, Text, UnitEnd,
};
use std::alloc::Global;
use std::test::Fail;

const NO_RULES: &str = r#"{
  "revision": 0,
  "rules": [],
  "version": 1
}
"#;

const ONE_RULE: &str = r#"{
  "revision": 0,
  "rules": [
    {
      "primary-output": "m.o",
      "provides": [
        {
          "is-interface": true,
          "logical-name": "M",
          "source-path": "/p/m.cppm"
        }
      ]
    }
  ],
  "version": 1
}
"#;

const USUAL: &str = r#"{
  "revision": 0,
  "rules": [
    {
      "primary-output": "main.cpp.o",
      "requires": [
        {
          "logical-name": "core"
        },
        {
          "logical-name": "core.io"
        }
      ]
    },
    {
      "primary-output": "core.o",
      "provides": [
        {
          "is-interface": true,
          "logical-name": "core",
          "source-path": "/p/core.cppm"
        }
      ],
      "requires": [
        {
          "logical-name": "core:impl"
        }
      ]
    },
    {
      "primary-output": "impl.o",
      "provides": [
        {
          "is-interface": true,
          "logical-name": "core:impl",
          "source-path": "/p/impl.cppm"
        }
      ]
    },
    {
      "primary-output": "io.o",
      "provides": [
        {
          "is-interface": true,
          "logical-name": "core.io",
          "source-path": "/p/io.cppm"
        }
      ],
      "requires": [
        {
          "logical-name": "core"
        }
      ]
    }
  ],
  "version": 1
}
"#;

const ESCAPED: &str = r#"{
  "revision": 0,
  "rules": [
    {
      "primary-output": "plain.o"
    },
    {
      "primary-output": "a\"b\\c.o",
      "provides": [
        {
          "is-interface": false,
          "logical-name": "é\u001f",
          "source-path": "/p\n\t"
        }
      ],
      "requires": [
        {
          "logical-name": "\u0001"
        }
      ]
    }
  ],
  "version": 1
}
"#;

fn known(
    alloc: Global,
    output: &str,
    source: &str,
    module: Option<(&str, bool)>,
    names: &[&str],
) -> Option<UnitEnd> {
    let provides = match module {
        Some((name, interface)) => Some(Provided {
            name: Text::copy(alloc, name).ok()?,
            interface,
        }),
        None => None,
    };
    let mut required = Items::new(alloc);
    for name in names {
        required.push(Text::copy(alloc, name).ok()?).ok()?;
    }
    Some(UnitEnd::Record(Record {
        output: Text::copy(alloc, output).ok()?,
        source: Text::copy(alloc, source).ok()?,
        provides,
        required,
    }))
}

fn stopped(alloc: Global) -> Option<UnitEnd> {
    let path = Bytes::copy(alloc, b"/p/a.cpp").ok()?;
    Some(UnitEnd::Stopped(Fault {
        kind: FaultKind::TooDeep,
        place: Place { path, line: 1 },
    }))
}

fn writes(alloc: Global, ends: Vec<UnitEnd>, want: &str) -> bool {
    match text(alloc, &Items::of_vec(ends)) {
        Ok(bytes) => bytes.as_slice() == want.as_bytes(),
        Err(_) => false,
    }
}

fn usual(alloc: Global) -> Option<Vec<UnitEnd>> {
    let mut ends = Vec::new(alloc);
    ends.push(known(
        alloc,
        "main.cpp.o",
        "/p/main.cpp",
        None,
        &["core", "core.io"],
    )?)
    .ok()?;
    ends.push(known(
        alloc,
        "core.o",
        "/p/core.cppm",
        Some(("core", true)),
        &["core:impl"],
    )?)
    .ok()?;
    ends.push(known(
        alloc,
        "impl.o",
        "/p/impl.cppm",
        Some(("core:impl", true)),
        &[],
    )?)
    .ok()?;
    ends.push(known(
        alloc,
        "io.o",
        "/p/io.cppm",
        Some(("core.io", true)),
        &["core"],
    )?)
    .ok()?;
    Some(ends)
}

// Names that need escapes, among ends that are no records.
fn escaped(alloc: Global) -> Option<Vec<UnitEnd>> {
    let mut ends = Vec::new(alloc);
    ends.push(stopped(alloc)?).ok()?;
    ends.push(known(alloc, "plain.o", "/p/plain.cpp", None, &[])?)
        .ok()?;
    ends.push(UnitEnd::Refused(CommandFault::BadCommand)).ok()?;
    ends.push(UnitEnd::NoMemory).ok()?;
    let module = Some(("é\u{1f}", false));
    ends.push(known(alloc, "a\"b\\c.o", "/p\n\t", module, &["\u{1}"])?)
        .ok()?;
    Some(ends)
}

#[test]
fn documents_are_written_byte_for_byte(rt: HostRuntime) -> Result<(), Fail> {
    let alloc = rt.alloc();
    assert!(rt; writes(alloc, Vec::new(alloc), NO_RULES));
    let module = known(alloc, "m.o", "/p/m.cppm", Some(("M", true)), &[]).ok_or("memory")?;
    let mut one = Vec::new(alloc);
    assert!(rt; one.push(module).is_ok());
    assert!(rt; writes(alloc, one, ONE_RULE));
    assert!(rt; writes(alloc, usual(alloc).ok_or("memory")?, USUAL));
    assert!(rt; writes(alloc, escaped(alloc).ok_or("memory")?, ESCAPED));
    Ok(())
}
