use super::*;
use std::test::Fail;

#[test]
fn tables_give_their_values(rt: HostRuntime) -> Result<(), Fail> {
    assert_eq!(rt; punctuator(b"<::x"), Some((2, 2)));
    assert_eq!(rt; punctuator(b"%:%:%:"), Some((51, 4)));
    assert_eq!(rt; punctuator(b"a"), None);
    assert_eq!(rt; operator_word(b"and"), Some(41));
    assert_eq!(rt; operator_word(b"an"), None);
    assert_eq!(rt; directive_word(b"ident"), Some(13));
    assert_eq!(rt; directive_word(b"elifdef"), Some(14));
    assert_eq!(rt; directive_word(b"elifndef"), Some(15));
    assert_eq!(rt; directive_word(b"include_next"), Some(16));
    assert_eq!(rt; attribute_value(b"nodiscard"), Some(201907));
    assert_eq!(rt; attribute_value(b"packed"), None);
    Ok(())
}

const ROWS: [Row; 3] = [
    Row {
        text: b"ab",
        value: 7,
    },
    Row {
        text: b"ab",
        value: 8,
    },
    Row {
        text: b"a",
        value: 9,
    },
];

#[test]
fn the_first_of_equal_rows_is_found(rt: HostRuntime) -> Result<(), Fail> {
    assert_eq!(rt; find(&ROWS, b"ab"), Some(7));
    assert_eq!(rt; longest(&ROWS, b"abc"), Some((7, 2)));
    Ok(())
}
