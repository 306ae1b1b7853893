//! The law of each form of statement but `par`: what a task owes that stands at the start of its
//! code, inside any scene. It has definitions and lemmas alone, which `code_laws` puts together to
//! the law of all statements. It stands on `scene_laws`; `par_laws`, which stands on it, has the
//! kinds of `par`. Start with `proofs/Forms/Simple.antt`, the statements without blocks;
//! `proofs/CallPairs` has `both`, and `proofs/Premises` what a law asks of its scene.
#![tactic(auto)]
