//! What decoding passes and refuses.

use decode::decode;
use wire::fault::Layer;
use wire::message::Feed;

/// The number and the place of a refusal.
fn fault_of(feed: Feed, bytes: &[u8]) -> Option<(u8, usize)> {
    let fault = decode(feed, bytes).err()?;
    Some((fault.number(), fault.place()))
}

/// The layer of a refusal by Depth.
fn layer_of(bytes: &[u8]) -> Option<Layer> {
    Some(decode(Feed::Depth, bytes).err()?.layer())
}

#[test]
fn an_empty_message_has_no_byte(rt: HostRuntime) {
    assert!(rt; fault_of(Feed::Depth, b"") == Some((1, 0)));
    assert!(rt; layer_of(b"") == Some(Layer::Bytes));
}

#[test]
fn the_product_of_price_and_shares_is_limited(rt: HostRuntime) {
    let most =
        b"A\x00\x01\0\0\0\0\0\0\0\x05\0\0\0\0\0\0\0\x07B\x00\x00\xC3\x50ABCD    \0\0\0\0\x77\x35\x94\x00";
    let over =
        b"A\x00\x01\0\0\0\0\0\0\0\x05\0\0\0\0\0\0\0\x07B\x00\x00\xC3\x51ABCD    \0\0\0\0\x77\x35\x94\x00";
    assert!(rt; fault_of(Feed::Depth, most) == None);
    assert!(rt; fault_of(Feed::Depth, over) == Some((8, 32)));
    assert!(rt; layer_of(over) == Some(Layer::Fields));
}

#[test]
fn eight_spaces_are_no_symbol(rt: HostRuntime) {
    let halt = b"H\x00\x01\0\0\0\0\0\0\0\x05        H";
    assert!(rt; fault_of(Feed::Depth, halt) == Some((5, 11)));
    assert!(rt; fault_of(Feed::LastSale, halt) == Some((5, 11)));
}

#[test]
fn both_x_have_their_own_length(rt: HostRuntime) {
    let sale =
        b"X\x00\x01\0\0\0\0\0\0\0\x05ABCD    \0\0\0\0\0\0\0\x09\0\0\0\0\0\x01\x86\xA0\0\0\0\x28";
    assert!(rt; fault_of(Feed::Depth, sale) == Some((3, 23)));
    assert!(rt; fault_of(Feed::LastSale, sale) == None);
    assert!(rt; fault_of(Feed::Bbbo, sale) == Some((2, 0)));
}
