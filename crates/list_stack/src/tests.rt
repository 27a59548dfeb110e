ghost use Rattle.std.specs.Prelude.{IfOk, OnOk};
ghost use Rattle.hide_sets.specs.Sets.{Sets};
ghost use Rattle.substitution.specs.Meaning.{AreMarked};

use crate::ListStack;
use hide_sets::{HideSet, HideSets};
use scan_model::{Bytes, Items, Kind, NoMemory, Tok};
use std::alloc::Global;
use std::test::Fail;
use substitution::Marked;

// Tokens are words, and `|` stands between two lists where a stack is shown.

fn add_word(marked: &mut Vec<Marked>, alloc: Global, word: &str) -> Result<(), NoMemory>
    ensures { OnOk result ((sets : Sets) → AreMarked sets marked.old.items → AreMarked sets marked.new.items) }
{
    let text = word.as_bytes();
    let kind = match text {
        [b'a'..=b'z', ..] => Kind::Ident,
        _ => Kind::Punct,
    };
    let tok = Tok {
        kind,
        text: Bytes::copy(alloc, text)?,
        space: true,
        line: 1,
    };
    marked.push(Marked {
        tok,
        hides: HideSet::empty(),
    })?;
    Ok(())
}

fn marked(alloc: Global, words: &str) -> Result<Vec<Marked>, NoMemory>
    ensures { IfOk result (λ marked. (sets : Sets) → AreMarked sets marked.items) }
{
    let mut marked = Vec::new(alloc);
    'words: for word in words.split_whitespace() {
        add_word(&mut marked, alloc, word)?;
    }
    Ok(marked)
}

fn stack(alloc: Global, words: &str) -> Result<ListStack, NoMemory>
    ensures { IfOk result (λ stack. (sets : Sets) → AreMarked sets stack.first) }
{
    ListStack::of_list(alloc, marked(alloc, words)?)
}

/// The tokens, with a blank between two of them.
fn add_text(text: &mut Vec<u8>, list: &[Marked]) -> Result<(), NoMemory> {
    let mut is_first = true;
    for marked in list {
        if !is_first {
            text.push(b' ')?;
        }
        text.extend_from_slice(marked.tok.text.as_slice())?;
        is_first = false;
    }
    Ok(())
}

/// All lists, the one at work first.
fn shown(alloc: Global, stack: ListStack) -> Result<Vec<u8>, NoMemory> {
    let mut stack = stack;
    let mut text = Vec::new(alloc);
    for _ in 0..9u32 {
        add_text(&mut text, stack.copy_list(alloc)?.as_slice())?;
        if stack.is_last_list() {
            return Ok(text);
        }
        text.push(b'|')?;
        stack.take_list(alloc)?;
    }
    Ok(text)
}

/// The words with their first parentheses opened, and what they enclose cut at most so often.
fn opened(alloc: Global, words: &str, most: usize) -> Result<Vec<u8>, NoMemory> {
    let mut stack = stack(alloc, words)?;
    match stack.open()? {
        Some(_) => {
            stack.cut(most)?;
            shown(alloc, stack)
        }
        None => Ok(Vec::new(alloc)),
    }
}

#[test]
fn calls_are_cut(rt: HostRuntime) -> Result<(), Fail> {
    let alloc = rt.alloc();
    let rows = [
        ("( a , f ( b , c ) ) d", 9, "a|f ( b , c )|d"),
        ("( a , b , c ) d ( e )", 1, "a|b , c|d ( e )"),
        ("( a , b )", 0, "a , b|"),
        ("( )", 9, "|"),
        ("( , ) ,", 9, "||,"),
        ("( ( a , b ) , ( c ) ) )", 9, "( a , b )|( c )|)"),
        ("( a , ( b )", 9, ""),
        ("a ( b )", 9, ""),
        ("", 9, ""),
    ];
    for (words, most, lists) in rows {
        assert_eq!(rt;
            opened(alloc, words, most)?.as_slice(),
            lists.as_bytes(),
            "{words}"
        );
    }
    Ok(())
}

#[test]
fn a_call_in_an_argument_is_opened(rt: HostRuntime) -> Result<(), Fail> {
    let alloc = rt.alloc();
    let mut stack = stack(alloc, "( f ( b , c ) x , y ) d")?;
    assert!(rt; stack.open()?.is_some());
    assert_eq!(rt; stack.cut(9)?, 2);
    stack.skip(1);
    assert!(rt; stack.is_called() && stack.open()?.is_some());
    assert_eq!(rt; stack.cut(9)?, 2);
    assert!(rt; stack.next().is_some() && stack.next().is_none());
    assert_eq!(rt; shown(alloc, stack)?.as_slice(), b"|c|x|y|d".as_slice());
    Ok(())
}

#[test]
fn a_close_that_nothing_opened_is_passed(rt: HostRuntime) -> Result<(), Fail> {
    let alloc = rt.alloc();
    let mut stack = stack(alloc, "f ( a ) , ) ( b , c ) , g")?;
    stack.skip(2);
    assert_eq!(rt; stack.cut(9)?, 3);
    assert_eq!(rt;
        shown(alloc, stack)?.as_slice(),
        b"a )|) ( b , c )|g".as_slice()
    );
    Ok(())
}

/// The words with their first parentheses opened, and the list put before what they enclose.
fn with_list(alloc: Global, words: &str, list: &str) -> Result<Option<ListStack>, NoMemory> {
    let mut sets = HideSets::new(alloc);
    let added = sets.also(alloc, HideSet::empty(), b"n")?;
    let list = Items::of_vec(marked(alloc, list)?);
    let mut stack = stack(alloc, words)?;
    let Some(_) = stack.open()? else {
        return Ok(None);
    };
    stack.put_before(&mut sets, list, added)?;
    Ok(Some(stack))
}

#[test]
fn a_list_is_put_before(rt: HostRuntime) -> Result<(), Fail> {
    let alloc = rt.alloc();
    let stack = with_list(alloc, "( u , v ) w", "x ( y )")?.ok_or("no parentheses")?;
    assert_eq!(rt;
        shown(alloc, stack)?.as_slice(),
        b"x ( y ) u , v|w".as_slice()
    );
    Ok(())
}

#[test]
fn a_close_of_another_list_closes_nothing(rt: HostRuntime) -> Result<(), Fail> {
    let alloc = rt.alloc();
    let mut stack = with_list(alloc, "( u ) ) )", "( y")?.ok_or("no parentheses")?;
    assert!(rt; stack.is_called() && stack.open()?.is_none());
    let stack = with_list(alloc, "( u ) ) )", "( y")?.ok_or("no parentheses")?;
    assert_eq!(rt; shown(alloc, stack)?.as_slice(), b"( y u|) )".as_slice());
    Ok(())
}
