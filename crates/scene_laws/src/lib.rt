//! Which code is the code of a statement, and what the laws of such codes speak of: the scene of a
//! statement, which is all that goes on round it, what the parts of a cut hold and end with, what
//! they merge to, and how many blocks there are. It has definitions and lemmas alone, for
//! `form_laws`, `par_laws` and `code_laws`, whose laws they serve, and for `block_lower`, whose
//! contracts cite the definitions. It stands on the meaning of programs, on the machine, and on the
//! code of expressions, handlers and joins. Start with `specs/Code.antt` for the codes, and with
//! `proofs/Scenes/Scene.antt` for the scenes.
#![tactic(auto)]
