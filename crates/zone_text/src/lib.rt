//! Texts of zones and scripts (RFC 1035, section 5): their lines, the tokens of a line and of an entry, and what words say:
//! numbers, times, addresses and escapes.
#![tactic(auto)]

mod addresses;
mod entry_tokens;
mod escapes;
mod lexer;
mod lines;
mod numbers;
mod refusal;
mod single_lines;
mod token;
mod words;

pub use addresses::{all_hex, digit_value, push_address, push_address6};
pub use entry_tokens::{Lexed, scan_entry, tokens};
pub use escapes::push_unescaped;
pub use lines::line_at;
pub use numbers::push_decimal;
pub use refusal::{ZoneRefusal, refuse};
pub use single_lines::{LexedLine, line_tokens};
pub use token::Token;
pub use words::{MOST_TIME, all_digits, is_word, number, time_of};
