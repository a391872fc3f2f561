//! Tokens of C.
//!
//! A text is cut from its front into words, at each place the longest that is there (C11, 6.4,
//! "Lexical elements"). Words are the tokens, white space and comments. What begins no such word is
//! refused at its place. A text is bytes: it is read as ASCII, and any byte may be in a comment.
//!
//! `lexing::lex` gives the tokens of a text, in its order, or the first fault; `laws::laws` says
//! what holds of every text. A token has its kind and its bytes' places: a name's spelling is read
//! from the text, all else is in the kind.
//!
//! Proved: `lex` gives the longest-match list of tokens, or the first place where there is none.
//! Begin with `specs/Text.antt`, then `specs/Words.antt`.
#![tactic(auto)]

mod character;
mod comment;
mod identifier;
mod integer;
pub mod keyword;
pub mod laws;
pub mod lexing;
pub mod punctuator;
pub mod reserved;
pub mod token;
pub mod word;
