// Blocks and join targets of a code by their labels.

ghost use Rattle.std.specs.Prelude.{◌≡◌, MatchOption, Some, None, IfSome, IsTrue};
ghost use Rattle.tpal_machine.specs.Reading.{block_at, note_of, target_at, the_target, is_target};
ghost use Rattle.tpal_syntax.specs.Conditions.{are_distinct_tables, IsCode};

use tpal_syntax::{Block, CarryAt, Code, CutKind, Note, Target};

/// The block at a label, where there is one.
pub(crate) fn block_at(code: &Code, label: u32) -> Option<&Block>
    ensures right { IsCode code.now.tables code.now.blocks }
    ensures found { MatchOption result (block_at code.now label ≡ None)
        (λ block. block_at code.now label ≡ Some block.now) }
{
    code.blocks().get(label as usize)
}

/// The join target at a label, where that is one.
#[tactic(auto, using(crate::proofs::CodeBlocks::tables_differ))]
pub(crate) fn target_at(code: &Code, label: u32) -> Option<&Target>
    ensures found { MatchOption result (target_at code.now label ≡ None)
        (λ target. target_at code.now label ≡ Some target.now) }
    ensures right { IfSome result (λ target. IsTrue (are_distinct_tables target.now.carries)) }
{
    match code.blocks().get(label as usize) {
        None => None,
        Some(block) => match &block.note {
            Note::Plain | Note::Ready(_) => None,
            Note::Target(target) => Some(target),
        },
    }
}

/// Whether a label is that of a join target.
pub(crate) fn is_target(code: &Code, label: u32) -> bool
    ensures { result ≡ is_target code.now label }
{
    target_at(code, label).is_some()
}

/// The renaming of the join target at a label; none where that isn't one.
pub(crate) fn renames_of(code: &Code, label: u32) -> &[(u8, u8)]
    ensures { result.now ≡ (the_target code.now label).renames }
{
    match target_at(code, label) {
        None => &[],
        Some(target) => target.renames.items(),
    }
}

/// What the join target at a label cuts; a loop where that isn't one.
pub(crate) fn kind_of(code: &Code, label: u32) -> CutKind
    ensures { result ≡ (the_target code.now label).kind }
{
    match target_at(code, label) {
        None => CutKind::Loop,
        Some(target) => target.kind,
    }
}

/// The combining block of the join target at a label; the first block where that isn't one.
pub(crate) fn comb_of(code: &Code, label: u32) -> u32
    ensures { result ≡ (the_target code.now label).comb }
{
    match target_at(code, label) {
        None => 0,
        Some(target) => target.comb,
    }
}

/// The carried parts of the join target at a label; none where that isn't one.
pub(crate) fn carries_of(code: &Code, label: u32) -> &[CarryAt]
    ensures carries { result.now ≡ (the_target code.now label).carries }
    ensures differ { IsTrue (are_distinct_tables result.now) }
{
    match target_at(code, label) {
        None => &[],
        Some(target) => target.carries.items(),
    }
}
