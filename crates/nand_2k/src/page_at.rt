//! Where a page is, and which one is in memory.
ghost use Rattle.std.specs.Prelude.{◌≡◌, ◌≢◌, Some};
ghost use Rattle.std.specs.Bool.{OnTrue, OnFalse};
ghost use Rattle.nand_2k.specs.declared.page_at.PageAt.{PageAt};

/// The block of a page, and its number there, 0 to 63.
#[derive(Clone, Copy)]
pub(crate) struct PageAt {
    pub(crate) block: u32,
    pub(crate) page: u32,
}

/// Whether it is this page.
pub(crate) fn is_at(cached: Option<PageAt>, block: u32, page: u32) -> bool
    ensures this { OnTrue result (cached ≡ Some (record { block = block; page = page })) }
    ensures other { OnFalse result (cached ≢ Some (record { block = block; page = page })) }
{
    match cached {
        Some(at) => at.block == block && at.page == page,
        None => false,
    }
}

/// None where it is this page.
pub(crate) fn other_than(cached: Option<PageAt>, block: u32, page: u32) -> Option<PageAt>
    ensures kept { (at : PageAt) → result ≡ Some at → cached ≡ Some at }
    ensures other { result ≢ Some (record { block = block; page = page }) }
{
    if is_at(cached, block, page) {
        return None;
    }
    cached
}

/// None where it is a page of this block.
pub(crate) fn outside(cached: Option<PageAt>, block: u32) -> Option<PageAt>
    ensures kept { (at : PageAt) → result ≡ Some at → cached ≡ Some at }
    ensures other { (at : PageAt) → result ≡ Some at → at.block ≢ block }
{
    match cached {
        Some(at) if at.block == block => None,
        _ => cached,
    }
}
