ghost use Rattle.std.specs.Prelude.{◌≡◌};
ghost use Rattle.std.specs.Option.{option_map};
ghost use Rattle.scan_model.specs.HeaderName.{terms};
ghost use Rattle.if_values.specs.Known.{has_count};

use crate::digits::byte_at;
use crate::header_name::has_name;
use crate::token_tests::is_has;
use crate::{CondFault, CondValue, HasAt, HasNext, next_has, value};
use scan_model::{Bytes, Form, Kind, NoMemory, Tok};
use std::alloc::Global;
use std::process::Abort;
use std::test::Fail;

fn kind_of(word: &[u8]) -> Kind {
    match word {
        b"and" | b"or" | b"not" | b"xor" | b"bitand" | b"bitor" | b"compl" | b"not_eq" => {
            return Kind::Punct;
        }
        _ => {}
    }
    let first = byte_at(word, 0);
    if first == b'"' {
        Kind::Str
    } else if first == b'<' && byte_at(word, 1).is_ascii_alphabetic() {
        Kind::Header
    } else if first.is_ascii_digit() {
        Kind::Number
    } else if word.contains(&b'\'') {
        Kind::Char
    } else if first.is_ascii_alphabetic() || first == b'_' {
        Kind::Ident
    } else {
        Kind::Punct
    }
}

// Adds a token whose kind its spelling tells.
fn add(alloc: Global, toks: &mut Vec<Tok>, word: &str) -> Result<(), NoMemory> {
    let word = word.as_bytes();
    toks.push(Tok {
        kind: kind_of(word),
        text: Bytes::copy(alloc, word)?,
        space: true,
        line: 1,
    })?;
    Ok(())
}

fn add_all(alloc: Global, toks: &mut Vec<Tok>, words: &str, times: usize) -> Result<(), NoMemory> {
    for _ in 0..times {
        for word in words.split_whitespace() {
            add(alloc, toks, word)?;
        }
    }
    Ok(())
}

// How many `__has_include` and `__has_include_next` there are; none where one is malformed.
fn count(toks: &[Tok]) -> Option<usize>
    ensures { result ≡ option_map has_count (terms toks.now) }
{
    let mut rest = toks;
    let mut found = 0;
    'terms: while !rest.is_empty() {
        let tok = &rest[0];
        let (_, after) = rest.split_at(1);
        if !is_has(tok) {
            rest = after;
            continue;
        }
        let name = has_name(after)?;
        let (_, further) = name.after.split_at(1);
        rest = further;
        found += 1;
    }
    Some(found)
}

fn checked(toks: &[Tok], has: &[bool]) -> Result<CondValue, CondFault> {
    match count(toks) {
        Some(n) => {
            if n == has.len() {
                value(toks, has)
            } else {
                Err(CondFault::BadCondition)
            }
        }
        None => Err(CondFault::BadCondition),
    }
}

fn value_of(
    alloc: Global,
    words: &str,
    has: &[bool],
) -> Result<Result<CondValue, CondFault>, NoMemory> {
    let mut toks = Vec::new(alloc);
    add_all(alloc, &mut toks, words, 1)?;
    Ok(checked(toks.as_slice(), has))
}

#[derive(Clone, Copy)]
struct Row {
    words: &'static str,
    bits: u64,
}

macro_rules! rows {
    ($($words:literal => $bits:expr),* $(,)?) => {
        [$(Row { words: $words, bits: $bits }),*]
    };
}

fn all_are(rt: &impl Abort, alloc: Global, rows: &[Row], unsigned: bool) -> Result<(), NoMemory> {
    for row in rows {
        let found = value_of(alloc, row.words, &[])?;
        let bits = row.bits;
        assert_eq!(rt; found, Ok(CondValue { bits, unsigned }), "{}", row.words);
    }
    Ok(())
}

const MINUS_ONE: u64 = u64::MAX;

const MINUS_TWO: u64 = u64::MAX - 1;

const MINUS_THREE: u64 = u64::MAX - 2;

const OPERATORS: [Row; 36] = rows![
    "1 || 0" => 1, "0 or 0" => 0, "2 && 3" => 1, "2 and 0" => 0,
    "6 | 1" => 7, "6 bitor 3" => 7, "6 ^ 3" => 5, "6 xor 6" => 0, "6 & 3" => 2, "6 bitand 1" => 0,
    "3 == 3" => 1, "- 3 == 3" => 0, "3 != 3" => 0, "3 not_eq 4" => 1,
    "- 1 < 1" => 1, "1 > - 1" => 1, "- 2 <= - 2" => 1, "- 2 >= - 1" => 0,
    "1 << 63" => 1 << 63, "- 1 << 1" => MINUS_TWO, "- 8 >> 1" => u64::MAX - 3, "- 1 >> 63" => MINUS_ONE,
    "8 >> 3" => 1, "1 - 2" => MINUS_ONE, "- 1 + - 2" => MINUS_THREE, "9223372036854775807 + 1" => 1 << 63,
    "- 3 * 2" => u64::MAX - 5, "- 7 / 2" => MINUS_THREE, "7 / - 2" => MINUS_THREE, "- 7 % 2" => MINUS_ONE,
    "7 % - 2" => 1, "( - 9223372036854775807 - 1 ) / - 1" => 1 << 63,
    "( - 9223372036854775807 - 1 ) % - 1" => 0, "! 5" => 0, "not 0" => 1, "compl 0" => MINUS_ONE,
];

const GROUPING: [Row; 30] = rows![
    "1 || 0 && 0" => 1, "1 && 0 | 2" => 1, "1 | 3 ^ 3" => 1, "1 ^ 3 & 2" => 3, "2 & 2 == 2" => 0,
    "1 == 2 < 3" => 1, "3 > 2 == 1" => 1, "3 < 1 << 2" => 1, "1 << 1 + 1" => 4, "1 + 2 * 3" => 7,
    "- 2 * 3 + 7" => 1, "10 - 4 - 3" => 3, "64 / 4 / 2" => 8, "1 << 2 << 3" => 32, "256 >> 4 >> 2" => 4,
    "3 > 2 > 1" => 0, "2 == 2 == 1" => 1, "! 0 + 1" => 2, "- - 1" => 1, "~ - 1" => 0, "! ! 7" => 1,
    "- + ~ 0" => 1, "1 ? 2 : 0 ? 3 : 4" => 2, "0 ? 2 : 0 ? 3 : 4" => 4, "1 ? 0 ? 5 : 6 : 7" => 6,
    "0 || 1 ? 2 : 3" => 2, "1 ? 2 : 3 || 0" => 2, "( 1 ? 0 : 1 ) + 4" => 4, "( ( 2 ) )" => 2, "2 * ( 3 + 4 )" => 14,
];

const LITERALS: [Row; 40] = rows![
    "0" => 0, "00" => 0, "017" => 15, "0x1F" => 31, "0XaB" => 171, "0b101" => 5, "0B1" => 1, "1'000" => 1000,
    "0x1'f" => 31, "0'7" => 7, "5l" => 5, "5L" => 5, "5ll" => 5, "5LL" => 5, "5z" => 5, "9223372036854775807" => (1 << 63) - 1,
    "'a'" => 97, "'ab'" => 24930, "'abcd'" => 1633837924, "'\\377'" => MINUS_ONE, "'\\x80'" => u64::MAX - 127,
    "'\\377\\377\\377\\377'" => MINUS_ONE, "'\\''" => 39, "'\\\"'" => 34, "'\\?'" => 63, "'\\\\'" => 92, "'\\a'" => 7,
    "'\\b'" => 8, "'\\f'" => 12, "'\\n'" => 10, "'\\r'" => 13, "'\\t'" => 9, "'\\v'" => 11, "'\\0'" => 0, "'\\1234'" => 21300,
    "u8'a'" => 97, "L'\\377'" => 255, "u'a'" => 97, "U'\\x7f'" => 127, "true + false + name" => 1,
];

const UNSIGNED: [Row; 16] = rows![
    "5u" => 5, "5uz" => 5, "5LLU" => 5, "0x8000000000000000" => 1 << 63, "18446744073709551615" => u64::MAX,
    "1 + 0u" => 1, "0u - 1" => u64::MAX, "~ 0u" => u64::MAX, "- 1u" => u64::MAX, "- 1 / 1u" => u64::MAX,
    "1 ? - 1 : 0u" => u64::MAX, "0 ? 1u : - 1" => u64::MAX, "1 ? - 1 : 0u / 0" => u64::MAX,
    "( 0 ? 1u : - 1 ) >> 63" => 1, "1u << 1" => 2, "- 1 | 0u" => u64::MAX,
];

const COMPARED: [Row; 14] = rows![
    "- 1 > 0u" => 1, "1u < - 1" => 1, "9223372036854775808 > 0" => 1, "'ab' == 24930" => 1, "'\\377' < 0" => 1,
    "( - 9223372036854775807 - 1 ) / - 1 < 0" => 1, "0u == 0" => 1, "1u && 1" => 1, "! 0u" => 1,
    "- 8 >> 1u" => u64::MAX - 3, "( 0 ? 0u : - 1 ) > 0" => 1, "__has_cpp_attribute ( nodiscard ) == 201907" => 1,
    "__has_cpp_attribute ( x :: y )" => 0, "__has_cpp_attribute ( other ) + __has_cpp_attribute ( likely )" => 201803,
];

const UNEVALUATED: [Row; 7] = rows![
    "1 ? 2 : ( 1 / 0 )" => 2, "0 && 1 << 64" => 0, "1 || 1 / 0" => 1, "0 ? 1 / 0 : 3" => 3, "0 && 1 / 0 || 1" => 1,
    "1 || 0 && 1 >> - 1" => 1, "1 ? 4 : 1 ? 1 / 0 : 1 << 64" => 4,
];

#[test]
fn conditions_by_hand(rt: HostRuntime) -> Result<(), Fail> {
    let alloc = rt.alloc();
    all_are(&rt, alloc, &OPERATORS, false)?;
    all_are(&rt, alloc, &GROUPING, false)?;
    all_are(&rt, alloc, &LITERALS, false)?;
    all_are(&rt, alloc, &UNSIGNED, true)?;
    all_are(&rt, alloc, &COMPARED, false)?;
    all_are(&rt, alloc, &UNEVALUATED, false)?;
    Ok(())
}

#[derive(Clone, Copy)]
struct Refused {
    words: &'static str,
}

macro_rules! refused {
    ($($words:literal),* $(,)?) => {
        [$(Refused { words: $words }),*]
    };
}

fn all_fail(
    rt: &impl Abort,
    alloc: Global,
    rows: &[Refused],
    fault: CondFault,
) -> Result<(), NoMemory> {
    for row in rows {
        let found = value_of(alloc, row.words, &[])?;
        assert_eq!(rt; found, Err(fault), "{}", row.words);
    }
    Ok(())
}

const BAD_NUMBERS: [Refused; 24] = refused![
    "18446744073709551616",
    "0x10000000000000000",
    "08",
    "0x",
    "0b2",
    "1.0",
    "1e5",
    "1lL",
    "1uu",
    "1''0",
    "5x",
    "0 && 08",
    "08 +",
    "1 / 0 + 08",
    "''",
    "'abcde'",
    "'\\400'",
    "'\\q'",
    "'\\x'",
    "'\\x100'",
    "L'ab'",
    "'a'_x",
    "u''",
    "__has_cpp_attribute ( 08 )",
];

const BAD_CONDITIONS: [Refused; 24] = refused![
    "",
    "1 2",
    "1 +",
    "+",
    "( 1",
    "1 )",
    "( )",
    "1 , 2",
    "( 1 , 2 )",
    "1 = 2",
    "1 <=> 2",
    "\"a\"",
    "1 ?",
    "1 ? 2",
    "1 ? 2 :",
    "1 ? : 2",
    "1 : 2",
    "defined",
    "defined X",
    "defined ( X )",
    "__has_cpp_attribute",
    "__has_cpp_attribute ( )",
    "1 / 0 +",
    "__has_cpp_attribute ( a :: b :: c )",
];

const DIVISIONS: [Refused; 5] = refused![
    "1 % 0",
    "1 / 0",
    "1 / 0 + ( 1 << 64 )",
    "1 && 1 / 0",
    "- 1 / 0u"
];

const SHIFTS: [Refused; 6] = refused![
    "1 << 64",
    "1 >> 64",
    "1 << - 1",
    "1 >> - 1",
    "( 1 << 64 ) / 0",
    "0 << 18446744073709551615"
];

#[test]
fn faults_by_hand(rt: HostRuntime) -> Result<(), Fail> {
    let alloc = rt.alloc();
    all_fail(&rt, alloc, &BAD_NUMBERS, CondFault::BadNumber)?;
    all_fail(&rt, alloc, &BAD_CONDITIONS, CondFault::BadCondition)?;
    all_fail(&rt, alloc, &DIVISIONS, CondFault::DivisionByZero)?;
    all_fail(&rt, alloc, &SHIFTS, CondFault::BadShift)?;
    Ok(())
}

// The words, so many times, then `1`, then other words as often.
fn nested(
    alloc: Global,
    before: &str,
    after: &str,
    times: usize,
) -> Result<Result<CondValue, CondFault>, NoMemory> {
    let mut toks = Vec::new(alloc);
    add_all(alloc, &mut toks, before, times)?;
    add(alloc, &mut toks, "1")?;
    add_all(alloc, &mut toks, after, times)?;
    Ok(checked(toks.as_slice(), &[]))
}

fn is_one(found: Result<CondValue, CondFault>) -> bool {
    match found {
        Ok(value) => value.bits == 1,
        Err(_) => false,
    }
}

#[test]
fn depths(rt: HostRuntime) -> Result<(), Fail> {
    let alloc = rt.alloc();
    let deep = Err(CondFault::ConditionTooDeep);
    assert!(rt; is_one(nested(alloc, "(", ")", 256)?));
    assert_eq!(rt; nested(alloc, "(", ")", 257)?, deep);
    assert!(rt; is_one(nested(alloc, "-", "", 256)?));
    assert_eq!(rt; nested(alloc, "-", "", 257)?, deep);
    assert!(rt; is_one(nested(alloc, "0 ? 2 :", "", 256)?));
    assert_eq!(rt; nested(alloc, "0 ? 2 :", "", 257)?, deep);
    assert!(rt; is_one(nested(alloc, "( - - ", ")", 256)?));
    let sum = CondValue {
        bits: 1_000_001,
        unsigned: false,
    };
    assert_eq!(rt; nested(alloc, "1 +", "", 1_000_000)?, Ok(sum));
    Ok(())
}

#[test]
fn names_by_hand(rt: HostRuntime) -> Result<(), Fail> {
    let alloc = rt.alloc();
    let mut toks = Vec::new(alloc);
    add_all(
        alloc,
        &mut toks,
        "__has_include ( <a> ) && __has_include ( 3 ) || __has_include_next ( \"b\" ) && __has_include_next ( < )",
        1,
    )?;
    let first = HasAt {
        first: 2,
        past: 3,
        form: Form::Angled,
        next: false,
    };
    let second = HasAt {
        first: 12,
        past: 13,
        form: Form::Quoted,
        next: true,
    };
    assert_eq!(rt; toks.len(), 19);
    assert_eq!(rt; next_has(toks.as_slice(), 0), HasNext::At(first));
    assert_eq!(rt; next_has(toks.as_slice(), 3), HasNext::Bad(5));
    assert_eq!(rt; next_has(toks.as_slice(), 6), HasNext::At(second));
    assert_eq!(rt; next_has(toks.as_slice(), 13), HasNext::Bad(15));
    assert_eq!(rt; next_has(toks.as_slice(), 19), HasNext::End);
    let one = Ok(CondValue {
        bits: 1,
        unsigned: false,
    });
    let words =
        "__has_include ( <a> ) + 2 * __has_include_next ( \"b\" ) == __has_include ( < c / d > )";
    assert_eq!(rt; value_of(alloc, words, &[true, false, true])?, one);
    Ok(())
}
