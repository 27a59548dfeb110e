ghost use Rattle.std.specs.Prelude.{◌≤◌, length};
ghost use Rattle.scan_model.specs.Limits.{file_limit};

use super::*;
use std::process::Abort;
use std::test::Fail;

// Exactly these bytes show, each with its place and its line, and the last line is that.
fn shows(rt: &impl Abort, text: &[u8], spots: &[(u8, usize, u32)], last: u32) -> Result<(), Fail>
    requires { length text.now ≤ file_limit }
{
    let mut at = Cursor::new(text);
    for &(byte, place, line) in spots {
        assert_eq!(rt; at.raw_from(), place);
        assert_eq!(rt; at.line(), line);
        let Some(next) = at.peek() else {
            return Err("too few".into());
        };
        assert_eq!(rt; next, byte);
        at.advance();
    }
    assert!(rt; at.is_end());
    assert_eq!(rt; at.raw_from(), text.len());
    assert_eq!(rt; at.text(), text);
    assert_eq!(rt; at.line(), last);
    Ok(())
}

#[test]
fn texts_show_what_phase_2_leaves(rt: HostRuntime) -> Result<(), Fail> {
    shows(&rt, b"", &[(b'\n', 0, 1)], 1)?;
    shows(
        &rt,
        b"\xEF\xBB\xBFa\r\nb",
        &[(b'a', 3, 1), (b'\n', 4, 1), (b'b', 6, 2), (b'\n', 7, 2)],
        2,
    )?;
    shows(
        &rt,
        b"a\\\r\n\\\nb\n",
        &[(b'a', 0, 1), (b'b', 6, 3), (b'\n', 7, 3)],
        3,
    )?;
    shows(&rt, b"\r\\\n\n", &[(b'\r', 0, 1), (b'\n', 3, 2)], 2)?;
    shows(&rt, b"\n\\\n", &[(b'\n', 0, 1)], 1)
}

#[test]
fn bytes_that_show_as_written_are_passed_at_once(rt: HostRuntime) -> Result<(), Fail> {
    let mut at = Cursor::new(b"ab\\\nc");
    assert_eq!(rt; at.ahead(), b"ab\\\nc".as_slice());
    at.pass_plain(2);
    assert_eq!(rt; at.ahead(), b"c".as_slice());
    assert_eq!(rt; at.line(), 2);
    assert_eq!(rt; at.peek(), Some(b'c'));

    let mut far = Cursor::new(b"a\\\n\r\nb\"\\\nc\n");
    far.pass_to(7);
    assert_eq!(rt; far.ahead(), b"c\n".as_slice());
    assert_eq!(rt; far.line(), 4);
    far.pass_to(11);
    assert!(rt; far.is_end());
    assert_eq!(rt; far.line(), 4);
    Ok(())
}
