// Laws of how loops and pairs of calls are cut. The functions do nothing: their contracts are the
// laws.

ghost use Rattle.handler_gen.specs.Frames.{CutsFrame, CutsPair};
ghost use Rattle.handler_gen.specs.LeafCuts.{ShowsAlike};
ghost use Rattle.handler_gen.specs.Sites.{IsCallSite, IsLoopSite};

use tpal_syntax::{CallSite, LeafSite, LoopSite};

/// A loop is cut as `split_frame` cuts its frame: where its activation shows a range, that of the
/// left shows the lower part, and that of the child the upper one, which begins with units.
pub fn cuts_frame(site: &LoopSite)
    requires site { IsLoopSite site.now }
    ensures { CutsFrame site.now }
{}

/// A pair of calls is cut as `split_frame` cuts its frame: the child's activation shows the
/// arguments of the second call, and the left has nothing of the activation that is cut.
pub fn cuts_pair(site: &CallSite)
    requires site { IsCallSite site.now }
    ensures { CutsPair site.now }
{}

/// Where the cells of a leaf loop have the words of its registers, the loop that it is then shows
/// the frames that the registers show. So it is cut as `cuts_frame` says of that loop.
pub fn shows_alike(site: &LeafSite)
    ensures { ShowsAlike site.now }
{}
