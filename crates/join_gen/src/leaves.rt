// The join of a leaf loop, whose accumulators stand in their cells where a side ends.

ghost use Rattle.std.specs.Prelude.{◌≡◌, ℕ, List, IfOk};
ghost use Rattle.tpal_syntax.specs.declared.blocks.CodeTable.{CodeTable};
ghost use Rattle.tpal_syntax.specs.Listing.{Listing};
ghost use Rattle.expr_lower.specs.Standing.{AreAt};
ghost use Rattle.expr_lower.specs.Fitting.{AreBlocksOf};
ghost use Rattle.handler_gen.specs.Fitting.{HasLeafPlaces};
ghost use Rattle.handler_gen.specs.LeafSites.{IsLeafSite, stored_loop};
ghost use Rattle.handler_gen.specs.Sites.{target_label};
ghost use Rattle.join_gen.specs.Blocks.{loop_join_blocks};
ghost use Rattle.join_gen.specs.LoopJoins.{IsRoundJoin, JoinsLoop};

use crate::loops::loop_join;
use handler_gen::stored_loop;
use std::alloc::Global;
use tp_value::NoMemory;
use tpal_syntax::{Block, LeafSite};

/// The blocks where the sides of a leaf loop meet, where they are combined, and where each of them
/// ends. They stand behind those of the leaf loop's handler. Before a side ends its accumulators
/// are stored; so in a code that has these blocks there they are those of the loop that it is then.
pub fn leaf_join(alloc: Global, site: &LeafSite) -> Result<Vec<Block>, NoMemory>
    requires site { IsLeafSite site.now }
    ensures blocks { IfOk result (λ v. v.items ≡ loop_join_blocks (stored_loop site.now)) }
    ensures joins { IfOk result (λ v. (code : Listing) (heartbeat : ℕ)
        → AreAt code (target_label (stored_loop site.now).label) v.items
        → IsRoundJoin code (stored_loop site.now)
        → JoinsLoop code heartbeat (stored_loop site.now)) }
    ensures fit { IfOk result (λ v. (tables : List CodeTable) (all : List Block)
        → HasLeafPlaces site.now tables all
        → AreBlocksOf tables all v.items) }
{
    let stored = stored_loop(alloc, site)?;
    let blocks = loop_join(alloc, &stored)?;
    Ok(blocks)
}
