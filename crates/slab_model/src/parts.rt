use crate::numbers::Numbers;
use crate::page::PageState;
use crate::runs::Run;
use crate::shape::Shape;
use crate::stat::Stat;

/// The lists of a plain slab.
#[derive(Debug, Drop)]
pub struct Parts {
    /// The bytes of the zone and the size of its pages.
    pub shape: Shape,
    /// What each page is.
    pub pages: Vec<PageState>,
    /// The free runs, in list order.
    pub runs: Vec<Run>,
    /// The pages of each class that have room, in list order.
    pub lists: Vec<Numbers>,
    /// The statistics of each class.
    pub stats: Vec<Stat>,
}
