//! Which code is the code of a program, and what such a code owes: the definitions that the
//! compiler's contracts cite, with no code of its own but the laws over them, for those who reason
//! about codes. It stands on `form_laws` and `par_laws`, which have the law of each form of
//! statement, and on `scene_laws`, which says which code is the code of a statement. Start with
//! `specs/Main.antt` and `laws`; `proofs/Whole` has the law of all statements, of functions and of
//! a program, and `proofs/Rules` says that a program without a broken rule fits.
#![tactic(auto)]

pub mod laws;
