// What samples to come can meet in memory.
use aram_core::PageSet;

/// The pages that the samples to come can read, and those that they can write. Where it is entangled, as where samples can write
/// what later ones read, a byte outside the read pages may change the samples too.
#[derive(Clone, Copy)]
pub struct ReachPages {
    pub read_pages: PageSet,
    pub write_pages: PageSet,
    pub entangled: bool,
}
