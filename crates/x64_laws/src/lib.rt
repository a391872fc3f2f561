//! Laws of the processor and of its instruction table, in the words of the Intel manual, above the
//! definitions that the processor is proved to follow.
//!
//! `arithmetic` says what the effects of ADD, SUB, IMUL, NEG, MOVSX, MOVZX and SAR leave, as
//! equations on whole numbers; `logic` what AND, OR, XOR, TEST and NOT do to each bit; `shifting`
//! that SHL and SHR are products and quotients by powers of two; `dividing` that DIV and IDIV leave
//! quotient and remainder of RDX and RAX together; `comparing` that after the effect of CMP each
//! condition is the comparison of the two numbers; `addressing` that an address is a sum; `stack`
//! what PUSH, POP, CALL and RET do to the stack's top; `spelling` that all that is spelled can be
//! encoded, in at most 15 bytes, and how spellings are read that are never written; `handlers` that
//! no instruction reads or writes the host's list of vectored handlers.
//!
//! Begin with `specs/Arithmetic.antt`.
#![tactic(auto)]

pub mod addressing;
pub mod arithmetic;
pub mod comparing;
pub mod dividing;
pub mod handlers;
pub mod logic;
pub mod shifting;
pub mod spelling;
pub mod stack;
