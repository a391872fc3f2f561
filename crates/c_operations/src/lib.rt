//! What is made of two numbers: the operations in which the meaning of C and linear code both
//! compute.
//!
//! A number of a type of at most 32 bits is held as its value of type `int` or `unsigned int`
//! modulo 2^32, and one of a type of 64 bits as its value modulo 2^64 (own). So the integer
//! promotions (C11, 6.3.1.1) change no number. Begin with `specs/Numbers.antt` (results without
//! faults) and `specs/Performed.antt` (division, loads and stores, with their faults).
#![tactic(auto)]

pub mod built_in;
pub mod field;
pub mod operation;
