//! The preprocessing tokens of a text, one by one and by logical lines ([lex.pptoken]), and two tokens joined to one
//! ([cpp.concat]).
#![tactic(auto)]

mod blanks;
mod class;
mod header_names;
mod lexeme;
mod logical_lines;
mod marks;
mod open_brackets;
mod passed;
mod passing;
mod spelled;
mod tokens;
mod unquoted;

pub use blanks::pass_blanks;
pub use lexeme::{Found, Spelling, pass_lexeme};
pub use logical_lines::lines;
pub use open_brackets::pass_next_lexeme;
pub use passing::pass_token;
pub use spelled::push_spelling;
pub use token_spelling::paste;
pub use tokens::{is_on_line, token};

#[cfg(test)]
mod tests;
