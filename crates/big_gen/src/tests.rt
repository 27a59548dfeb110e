use crate::make;
use std::test::Fail;

const DATABASE: &[u8] = b"[
{\"directory\":\"/m\",\"file\":\"u1.cppm\",\"arguments\":[\"c++\",\"-c\",\"u1.cppm\"]},
{\"directory\":\"/m\",\"file\":\"u2.cppm\",\"arguments\":[\"c++\",\"-c\",\"u2.cppm\"]}
]
";

#[test]
fn two_units_are_made(rt: HostRuntime) -> Result<(), Fail> {
    let tree = make(rt.alloc(), 2).ok().ok_or("memory")?;
    let files = tree.files.as_slice();
    assert_eq!(rt; files.len(), 66);
    assert_eq!(rt; files[0].path.as_slice(), b"/m/h1.h".as_slice());
    assert_eq!(rt;
        files[0].text.as_slice(),
        b"#pragma once\n#define H1 1\nint f1(int);\n".as_slice()
    );
    assert_eq!(rt; files[63].path.as_slice(), b"/m/h64.h".as_slice());
    assert_eq!(rt;
        files[63].text.as_slice(),
        b"#pragma once\n#include \"h32.h\"\n#define H64 1\nint f64(int);\n".as_slice()
    );
    assert_eq!(rt; files[65].path.as_slice(), b"/m/u2.cppm".as_slice());
    assert_eq!(rt;
        files[65].text.as_slice(),
        b"#include \"h15.h\"\n#if defined(H15) && H1\nexport module m2;\n#endif\nimport m1;\nint g2();\n".as_slice()
    );
    assert_eq!(rt; tree.database.as_slice(), DATABASE);
    Ok(())
}
