//! The names of the feeds.

ghost use Rattle.listing.specs.Feeds.{NamesFeed};

use wire::message::Feed;

/// The feed that a word names.
// Not `FromStr`: `Feed` is another crate's, which knows no names.
pub fn feed_named(word: &str) -> Option<Feed>
    ensures { NamesFeed word.now result }
{
    match word {
        "depth" => Some(Feed::Depth),
        "bbbo" => Some(Feed::Bbbo),
        "sale" => Some(Feed::LastSale),
        _ => None,
    }
}
