//! Whole texts, each with what it has to show: the tables that the tests of `rows` read.
//!
//! A table is one text. A row is `# NAME; OPTIONS: TEXT`, and then a line `=> CODE LINES ! LINES`:
//! the status as the number that the process ends with, the lines of `out` with `--trace`, and
//! those of
//! `err`, which are left out where there are none. Lines are joined by ` / ` or by line feeds.
//! `$TIMES*PIECE$` stands for a piece so many times, `$TIMES#PIECE$` for the same with a number
//! after each, from 0; in a program that many rows fill, `$0$`, `$1$`
//! and `$2$` stand for the columns of a row's text.
#![tactic(auto)]

pub mod binary;
pub mod cold_parts;
pub mod data_stack;
pub mod depths;
pub mod examples;
pub mod handlers;
pub mod many_locals;
pub mod refused;
pub mod texts;
pub mod unary;
pub mod vectored;
pub mod vectored_rules;
pub mod walks;
