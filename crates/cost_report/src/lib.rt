//! What a program can gain from more workers: its work, which is the ticks that its run counts, and
//! its span, which is what is left of them where what may run at once does. It stands on
//! `loop_meaning` and `loop_check`. Start with `specs/Span.antt`; `laws` says how both numbers hang
//! together.
#![tactic(auto)]

pub mod laws;
