//! The databases and files of the runs, and the documents that they print.

// A file is its path, in a line of its own, and its text. Behind the path may stand `fails`, where its read fails, or
// `comes`, where the first ask finds nothing and a second one this text. `~` parts files.
pub(crate) const ONE_U: &str = r#"/p/db.json
[{"directory":"/p","file":"u.cpp","arguments":["c++","-c","u.cpp"]}]"#;

pub(crate) const ONE_M: &str = r#"/p/db.json
[{"directory":"/p","file":"m.cppm","arguments":["c++","-c","m.cppm"]}]"#;

pub(crate) const TWO: &str = r#"/p/db.json
[{"directory":"/p","file":"a.cpp","arguments":["c++","-c","a.cpp"]},
{"directory":"/p","file":"b.cpp","arguments":["c++","-c","b.cpp"]}]"#;

pub(crate) const THREE: &str = r#"/p/db.json
[{"directory":"/p","file":"a.cpp","arguments":["c++","-c","a.cpp"]},
{"directory":"/p","file":"b.cpp","arguments":["c++","-c","b.cpp"]},
{"directory":"/p","file":"c.cpp","arguments":["c++","-c","c.cpp"]}]"#;

// Commands as texts, each of which is refused.
pub(crate) const REFUSED: &str = r#"/p/db.json
[{"directory":"/p","file":"u.cpp","command":"c++ \"x"},
{"directory":"/p","file":"u.cpp","command":"c++ -imacros f.h -c u.cpp"},
{"directory":"/p","file":"u.cpp","command":"c++ -D"}]"#;

pub(crate) const WITH_FOLDER: &str = r#"/p/db.json
[{"directory":"/p","file":"u.cpp","arguments":["c++","-I","inc","-c","u.cpp"]}]"#;

pub(crate) const SECOND_IS_BAD: &str = r#"/p/db.json
[{"directory":"/p","file":"u.cpp","arguments":["c++"]},{"directory":"/p","arguments":["c++"]}]"#;

pub(crate) const NO_RULES: &str = "{\n  \"revision\": 0,\n  \"rules\": [],\n  \"version\": 1\n}\n";

pub(crate) const TWO_RULES: &str = r#"{
  "revision": 0,
  "rules": [
    {
      "primary-output": "a.o"
    },
    {
      "primary-output": "b.o"
    }
  ],
  "version": 1
}
"#;

pub(crate) const PROVIDES_M: &str = r#"{
  "revision": 0,
  "rules": [
    {
      "primary-output": "m.o",
      "provides": [
        {
          "is-interface": true,
          "logical-name": "M",
          "source-path": "/p/m.cppm"
        }
      ]
    }
  ],
  "version": 1
}
"#;

pub(crate) const U_REQUIRES_M_AND_N: &str = r#"{
  "revision": 0,
  "rules": [
    {
      "primary-output": "u.o",
      "requires": [
        {
          "logical-name": "M"
        },
        {
          "logical-name": "N"
        }
      ]
    }
  ],
  "version": 1
}
"#;

pub(crate) const U_REQUIRES_A: &str = r#"{
  "revision": 0,
  "rules": [
    {
      "primary-output": "u.o",
      "requires": [
        {
          "logical-name": "a"
        }
      ]
    }
  ],
  "version": 1
}
"#;

pub(crate) const U_REQUIRES_V_W_AND_K: &str = r#"{
  "revision": 0,
  "rules": [
    {
      "primary-output": "u.o",
      "requires": [
        {
          "logical-name": "v"
        },
        {
          "logical-name": "w"
        },
        {
          "logical-name": "k"
        }
      ]
    }
  ],
  "version": 1
}
"#;

pub(crate) const PARTITION_P_OF_M: &str = r#"{
  "revision": 0,
  "rules": [
    {
      "primary-output": "u.o",
      "provides": [
        {
          "is-interface": false,
          "logical-name": "M:P",
          "source-path": "/p/u.cpp"
        }
      ],
      "requires": [
        {
          "logical-name": "M:Q"
        }
      ]
    }
  ],
  "version": 1
}
"#;

pub(crate) const B_REQUIRES_B: &str = r#"{
  "revision": 0,
  "rules": [
    {
      "primary-output": "b.o",
      "requires": [
        {
          "logical-name": "b"
        }
      ]
    }
  ],
  "version": 1
}
"#;

pub(crate) const C_REQUIRES_C: &str = r#"{
  "revision": 0,
  "rules": [
    {
      "primary-output": "c.o",
      "requires": [
        {
          "logical-name": "c"
        }
      ]
    }
  ],
  "version": 1
}
"#;

pub(crate) const BOTH_REQUIRE_NONE: &str = r#"{
  "revision": 0,
  "rules": [
    {
      "primary-output": "a.o",
      "requires": [
        {
          "logical-name": "none"
        }
      ]
    },
    {
      "primary-output": "b.o",
      "requires": [
        {
          "logical-name": "none"
        }
      ]
    }
  ],
  "version": 1
}
"#;

pub(crate) const USAGE: &str = "usage: scan_deps --compilation-database=FILE [options]\n";

// ## A usual database

pub(crate) const USUAL_WORDS: &str =
    "--compilation-database=/p/build/compile_commands.json -j 4 --predefines=/p/predef.h";

pub(crate) const USUAL_DATABASE: &str = r#"/p/build/compile_commands.json
[
{"directory":"/p/build","command":"/usr/bin/clang++ -DNDEBUG -DNAME=\\\"app\\\" -I/p/include -isystem /opt/lib/include -O2 -std=c++20 @main.cpp.o.modmap -o main.cpp.o -c /p/main.cpp","file":"/p/main.cpp","output":"main.cpp.o"},
{"directory":"/p/build","command":"/usr/bin/clang++ -I/p/include -std=c++20 -o core.o -c /p/core.cppm","file":"/p/core.cppm"},
{"directory":"/p/build","command":"/usr/bin/clang++ -I/p/include -std=c++20 -o impl.o -c /p/impl.cppm","file":"/p/impl.cppm"},
{"directory":"/p/build","command":"/usr/bin/clang++ -I/p/include -std=c++20 -o io.o -c /p/io.cppm","file":"/p/io.cppm"}
]
"#;

pub(crate) const USUAL_FILES: &str = "/p/predef.h
#define __clang__ 1
~/p/include/config.h
#pragma once
#if defined(__clang__) && __cplusplus >= 202002L
#define USE_IO 1
#endif
~/opt/lib/include/lib.h
#ifndef LIB_H
#define LIB_H
int lib();
#endif
~/p/main.cpp
#include <config.h>
#include <lib.h>
import core;
#if USE_IO
import core.io;
#endif
int main() { }
~/p/core.cppm
export module core;
export import :impl;
~/p/impl.cppm
module;
#include <config.h>
export module core:impl;
~/p/io.cppm
export module core.io;
import core;
";

pub(crate) const USUAL_DOCUMENT: &str = r#"{
  "revision": 0,
  "rules": [
    {
      "primary-output": "main.cpp.o",
      "requires": [
        {
          "logical-name": "core"
        },
        {
          "logical-name": "core.io"
        }
      ]
    },
    {
      "primary-output": "core.o",
      "provides": [
        {
          "is-interface": true,
          "logical-name": "core",
          "source-path": "/p/core.cppm"
        }
      ],
      "requires": [
        {
          "logical-name": "core:impl"
        }
      ]
    },
    {
      "primary-output": "impl.o",
      "provides": [
        {
          "is-interface": true,
          "logical-name": "core:impl",
          "source-path": "/p/impl.cppm"
        }
      ]
    },
    {
      "primary-output": "io.o",
      "provides": [
        {
          "is-interface": true,
          "logical-name": "core.io",
          "source-path": "/p/io.cppm"
        }
      ],
      "requires": [
        {
          "logical-name": "core"
        }
      ]
    }
  ],
  "version": 1
}
"#;

// ## The cases
