//! A capture, and how far it has been listed.

ghost use Rattle.std.specs.Prelude.{◌≡◌, ◌≤◌};
ghost use Rattle.listing.specs.Paging.{total, refusals, differences};

use wire::message::Feed;

/// A capture of a feed, and how many of its messages have been listed. If its index is refused it has none.
#[derive(Drop)]
pub struct Listing<'a> {
    pub(crate) feed: Feed,
    // Bytes and a count, not a `Capture`: a refused index is listed too, as one of no messages.
    pub(crate) capture: &'a [u8],
    pub(crate) count: usize,
    pub(crate) next: usize,
    pub(crate) refused: usize,
    pub(crate) differ: usize,
    // There are `count` messages, of which the first `next` are listed; of those so many are refused, and so many differ when written again.
    ghost whole: { count ≡ total capture.now },
    ghost within: { next ≤ count },
    ghost counted: { refused ≡ refusals feed capture.now next },
    ghost agree: { differ ≡ 0 },
    ghost compared: { differ ≡ differences feed capture.now next },
}
