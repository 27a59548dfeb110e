use super::*;

/// Fails where the words before ` => ` don't give those after it.
fn gives(alloc: Global, macros: &Macros, mode: Mode, row: &str) -> Result<(), Fail> {
    let Some((words, want)) = row.split_once(" => ") else {
        return Err(Fail::from("no row"));
    };
    let found = expanded(alloc, macros, mode, words)?;
    let text = shown(alloc, &found)?;
    if text.as_slice() == want.as_bytes() {
        Ok(())
    } else {
        Err(Fail::from("other tokens"))
    }
}

/// Each line defines a macro, or says what words give.
fn all_hold(alloc: Global, mode: Mode, program: &str) -> Result<(), Fail> {
    let mut macros = Macros::new(alloc)?;
    for line in program.split('\n') {
        match line.strip_prefix("#define ") {
            Some(words) => define(alloc, &mut macros, words)?,
            None => gives(alloc, &macros, mode, line)?,
        }
    }
    Ok(())
}

#[test]
fn names_hide_themselves(rt: HostRuntime) -> Result<(), Fail> {
    all_hold(
        rt.alloc(),
        Mode::Line,
        "#define f ( a ) a * g
#define g ( a ) f ( a )
f ( 2 ) ( 9 ) => 2 * 9 * g
#define x x + y
#define y x - y
x => x + x - y
#define b ( a ) [ a ]
b b ( b ( 1 ) ) => b [ [ 1 ] ]
#define id ( a ) a
id ( id ) ( 1 ) => id ( 1 )
id ( id ( id ( 7 ) ) ) => 7
#define z z [ 0 ]
#define twice ( x ) x x
twice ( z ) => z [ 0 ] z [ 0 ]",
    )
}

#[test]
fn calls_with_many_parameters(rt: HostRuntime) -> Result<(), Fail> {
    all_hold(
        rt.alloc(),
        Mode::Line,
        "#define n 7
#define f ( a , b , c , d , e , f , g , h , i , j , k , l ) l + a ## b # c h d
f ( x , y , n , 4 , 5 , 6 , 7 , ( n , n ) , 9 , 10 , 11 , n ) => 7 + xy \"n\" ( 7 , 7 ) 4",
    )
}

#[test]
fn calls_close_outside_their_list(rt: HostRuntime) -> Result<(), Fail> {
    all_hold(
        rt.alloc(),
        Mode::Line,
        "#define n 2
#define k ( a ) k ( n * ( a ) )
#define kk k
#define v v [ 0 ]
#define open kk ( ~
#define app ( a ) a ( pair )
#define pair 0 , 1
#define id ( a ) a
k ( y + 1 ) => k ( 2 * ( y + 1 ) )
k ( k ( v ) ) => k ( 2 * ( k ( 2 * ( v [ 0 ] ) ) ) )
id ( id ( kk ) ( 0 ) + id ) ( 1 ) => k ( 2 * ( 0 ) ) + id ( 1 )
kk ( n + ( 3 , 4 ) - pair ) => k ( 2 * ( 2 + ( 3 , 4 ) - 0 , 1 ) )
open 5 ) => k ( 2 * ( ~ 5 ) )
app ( k ) => k ( 2 * ( 0 , 1 ) )
app ( app ) => app ( 0 , 1 )
open 5 => Bad",
    )
}

#[test]
fn arguments_are_counted(rt: HostRuntime) -> Result<(), Fail> {
    all_hold(
        rt.alloc(),
        Mode::Line,
        "#define none ( ) 5
none ( ) => 5
none ( 1 ) => Bad
none => none
#define two ( a , b ) b a
two ( 1 , 2 ) => 2 1
two ( ( 1 , 2 ) , 3 ) => 3 ( 1 , 2 )
two ( 1 ) => Bad
#define F ( x , ... ) g ( x , ## __VA_ARGS__ )
F ( 1 ) => g ( 1 )
F ( 1 , ) => g ( 1 )
F ( 1 , 2 ) => g ( 1 , 2 )
F ( 1 , 2 , 3 ) => g ( 1 , 2 , 3 )
F ( ) => g ( )
#define C ( a , b ) a ## b
C ( x , 1 ) C ( , y ) C ( < , <= ) C ( a b , c d ) => x1 y <<= a bc d
x C ( , ) => x
C ( + , - ) => Bad
C ( 1 => Bad
C ( 1 , 2 , 3 ) => Bad",
    )
}

#[test]
fn strings_and_joins_take_what_is_written(rt: HostRuntime) -> Result<(), Fail> {
    all_hold(
        rt.alloc(),
        Mode::Line,
        r#"#define one 1
#define str ( x ) # x
#define show ( x ) str ( x )
#define cat ( x , y ) x ## y
#define outer ( x , y ) cat ( x , y )
str ( one ) => "one"
show ( one ) => "1"
str ( "x" + one ) => "\"x\" + one"
cat ( one , one ) => oneone
outer ( one , one ) => 11
cat ( o , ne ) => 1
#define three ( x , y , z ) x ## y ## z
three ( 1 , 2 , 3 ) three ( , 4 , 5 ) three ( 6 , , 7 ) three ( 8 , 9 , ) three ( 10 , , ) => 123 45 67 89 10
#define S ( ... ) # __VA_OPT__ ( a __VA_ARGS__ )
S ( ) S ( 1 ) => "" "a 1"
#define EMPTY
#define log ( f , ... ) put ( f __VA_OPT__ ( , ) __VA_ARGS__ )
log ( "a" ) log ( "a" , EMPTY ) log ( "a" , 1 ) => put ( "a" ) put ( "a" ) put ( "a" , 1 )
#define join ( ... ) a ## __VA_OPT__ ( b )
join ( EMPTY ) join ( 1 ) => a ab"#,
    )
}

#[test]
fn conditions_know_what_is_defined(rt: HostRuntime) -> Result<(), Fail> {
    all_hold(
        rt.alloc(),
        Mode::Condition,
        "#define A
#define D defined
defined A || D ( B ) || defined => 1 || 0 || defined
defined ( A ) => 1
defined ( A => defined (
defined __COUNTER__ => 1
__has_include ( A ) => __has_include ( )
__has_include_next ( A ) => __has_include_next ( )
defined __has_include_next => 1
#define X
#define E defined ( X )
defined ( X ) + defined Y => 1 + 0
E => 1
__COUNTER__ => Counter",
    )
}

#[test]
fn conditions_are_settled_in_their_places(rt: HostRuntime) -> Result<(), Fail> {
    all_hold(
        rt.alloc(),
        Mode::Condition,
        "#define A
#define B 3
#define E D
#define f ( x ) x
#define L B
defined ( A ) && B >= 3 => 1 && 3 >= 3
__cplusplus > B && defined C => 202002L > 3 && 0
E == f || __has_include ( E ) => D == f || __has_include ( D )
B + f ( B ) + defined A => 3 + 3 + 1
L + E => 3 + D",
    )
}

#[test]
fn built_in_names_have_values(rt: HostRuntime) -> Result<(), Fail> {
    all_hold(
        rt.alloc(),
        Mode::Text(5),
        r#"__COUNTER__ __COUNTER__ => 5 6
__LINE__ __FILE__ => 5 "f.cpp"
__DATE__ __TIME__ => "Jan  1 1970" "00:00:00"
__cplusplus defined __has_include => 202002L defined __has_include
__has_include_next ( __LINE__ ) => __has_include_next ( 5 )
#define pass ( a ) a
pass ( __COUNTER__ ) __COUNTER__ => 5 6"#,
    )
}
