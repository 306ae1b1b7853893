//! The law of each kind of `par`: what a task owes that stands at the start of its code, inside any
//! scene. A quiet one is cut between two iterations alone, a leaf loop too, and its numbers stand
//! in registers; a deep one may be cut in the middle of an iteration. It has lemmas alone, which
//! `code_laws` puts together to the law of all statements. It stands on `form_laws`, which has the
//! laws of all other statements. Start with `proofs/QuietPars`: `Pars` and `Turning`.
#![tactic(auto)]
