//! Frames that functions give which are no coroutines: an alloca for each site.

ghost use Rattle.std.specs.Prelude.{◌≡◌};
ghost use Rattle.pass_elide.specs.Frames.{frame_of, site_frame};

use crate::given::{GivenFrame, GivenFrames};
use crate::places::CallPlace;
use crate::tables::Tables;
use frame_layout::Layout;
use ir_base::{BlockId, FuncId};
use ir_model::Instr;

/// What such a function's given frames are found by.
#[derive(Drop)]
pub struct SiteFrames<'a> {
    pub tables: &'a Tables<'a>,
    pub func: FuncId,
}

fn frame_of(layout: &Layout) -> GivenFrame
    ensures { result ≡ frame_of layout.now }
{
    GivenFrame::Alloca {
        size: layout.size,
        align: layout.align,
    }
}

impl GivenFrames for SiteFrames<'_> {
    ghost found = { λ r. site_frame
        r.tables.now.names.source.now r.tables.now.layouts.now r.tables.now.sites.now r.func };

    fn find(&self, block: BlockId, at: usize, instr: &Instr) -> Option<GivenFrame> {
        let place = CallPlace {
            func: self.func,
            block,
            at,
        };
        if !self.tables.is_site(place) {
            return None;
        }
        match self.tables.callee_layout(instr) {
            None => None,
            Some(layout) => Some(frame_of(layout)),
        }
    }
}
