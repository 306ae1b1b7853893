//! The compiler: from a checked program to the code of the machine. It stands on the tree and the
//! rules of `loop_syntax`, `loop_rules` and `loop_check`, on the code of expressions of
//! `expr_lower`, and on the handlers and joins of `handler_gen` and `join_gen`; `scene_laws`
//! and `code_laws` say which code is that of a statement and of a program, and what a program's
//! code owes. What writes such code begins in `program`.
//! `lowering` has the type that writes it, whose methods stand by what they write; `statement` says
//! which of them writes which form, `par` how one that a beat can cut is marked, and `leaf` which
//! variables of a loop stand in registers.
//! `built` says which programs there is code for: there is none yet for `leave`.
#![tactic(auto)]

mod body;
mod built;
mod call;
mod count;
mod deep;
mod fault;
mod function;
mod layout;
mod leaf;
mod lowering;
mod make;
mod opposite;
mod output;
mod par;
mod program;
mod quiet;
mod repeat;
mod round;
mod scope;
mod site;
mod sizes;
mod statement;
mod table;

pub use built::program_is_built;
pub use count::block_count;
pub use fault::LowerFault;
pub use program::lower;
