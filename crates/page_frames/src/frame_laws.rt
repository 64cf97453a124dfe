//! Laws of the frames of a pool, proved: a body that does nothing, and a contract that is the law.
ghost use Rattle.page_frames.specs.FrameLaws.{
  BringsAddAFrame,
  EvictionsTakeAFrame,
  PinsKeepFrames,
  LoansChangeAFrame,
  PutsByPeaksHaveRoom,
};

/// What the calls of a pool make of its frames: a page brought in has an empty one, a page evicted has
/// none, pins and holds keep all, and what is written through a loan is in the page's alone.
pub fn buffer_laws()
    ensures brings { BringsAddAFrame }
    ensures evicts { EvictionsTakeAFrame }
    ensures pins { PinsKeepFrames }
    ensures loans { LoansChangeAFrame }
{}

/// What the peaks of open sessions tell of a frame: where what is pending there takes no more than these,
/// a put for which the page has room by them has room in the frame.
pub fn room_laws()
    ensures { PutsByPeaksHaveRoom }
{}
