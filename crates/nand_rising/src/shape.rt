//! Which chunk of a page a slot is.
ghost use Rattle.std.specs.Prelude.{◌≡◌, ◌<◌, ◌+◌, ◌*◌, ◌/◌, ◌^◌};
ghost use Rattle.nand_rising.specs.Shapes.{power_below, is_served};

/// The shape of a part: how many blocks it has, how many pages a block, and how many chunks of 512
/// bytes a page, each of which is programmed by itself: 1 where each page is programmed once.
#[derive(Clone, Copy, Debug, PartialEq, Eq)]
pub struct Shape {
    pub blocks: u32,
    pub pages: u32,
    pub chunks: u32,
}

/// A chunk of a page, by its numbers in the block and in the page.
#[derive(Clone, Copy)]
pub(crate) struct ChunkAt {
    pub(crate) block: u32,
    pub(crate) page: u32,
    pub(crate) chunk: u32,
}

/// Whether slots can stand on a part of this shape.
#[tactic(auto, unfolding(crate::specs::Shapes::is_served))]
pub(crate) fn is_served(shape: Shape) -> bool
    ensures { result ≡ is_served shape }
{
    1 <= shape.pages && shape.pages <= 4096 && 1 <= shape.chunks && shape.chunks <= 16
}

/// How many of so many chunks of a block hold slots: 256, or the greatest power of two that there are.
pub(crate) fn slots_per_block(chunks: u32) -> u32
    ensures { result ≡ power_below 8 chunks }
{
    if chunks >= 256 {
        256
    } else if chunks >= 128 {
        128
    } else if chunks >= 64 {
        64
    } else if chunks >= 32 {
        32
    } else if chunks >= 16 {
        16
    } else if chunks >= 8 {
        8
    } else if chunks >= 4 {
        4
    } else if chunks >= 2 {
        2
    } else {
        1
    }
}

/// Block i of a place.
#[tactic(auto, using(std::proofs::lemmas::Nat::row_fits))]
pub(crate) fn block_at(place: u32, place_blocks: u32, i: u32, places: u32) -> u32
    requires place { place < places }
    requires i { i < place_blocks }
    requires fits { places * place_blocks < 2 ^ 32 }
    ensures value { result ≡ place * place_blocks + i }
    ensures below { result < places * place_blocks }
{
    place * place_blocks + i
}

/// Which block of its place a slot is in.
#[tactic(auto, using(std::proofs::lemmas::Nat::div_below))]
pub(crate) fn block_of(slot: u32, block_slots: u32, place_blocks: u32) -> u32
    requires some { 0 < block_slots }
    requires within { slot < place_blocks * block_slots }
    ensures value { result ≡ slot / block_slots }
    ensures within { result < place_blocks }
{
    slot / block_slots
}

/// The page of a chunk, by the number of the chunk in its block.
#[tactic(auto, using(std::proofs::lemmas::Nat::div_below))]
pub(crate) fn page_of(index: u32, shape: Shape) -> u32
    requires some { 0 < shape.chunks }
    requires within { index < shape.pages * shape.chunks }
    ensures value { result ≡ index / shape.chunks }
    ensures within { result < shape.pages }
{
    index / shape.chunks
}
