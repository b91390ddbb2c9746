//! The tokens of a game file, read from its bytes one after another.
#![tactic(auto)]

pub mod text;
pub mod tokens;

pub use def_file_tokens::{LexFault, Lexeme, Token};
pub use text::{Text, TextView, unescape};
pub use tokens::Tokens;
