//! Playing: a capture's index is judged whole, and then its messages are fed up to the first that is refused.

ghost use Rattle.std.specs.Prelude.{◌≡◌};
ghost use Rattle.book.specs.Play.{played};
ghost use Rattle.engine.specs.Engine.{engine_book};

use book::fault::PlayFault;
use book::value::{Order, Stock, Trade};
use capture::Capture;
use capture::fault::CaptureFault;
use engine::making::Engine;
use store::Store;

/// Feeds the messages of a capture from the pair `start` on, and answers how many it fed.
/// What was fed before a refused message stays.
pub fn play<S: Store<Stock>, O: Store<Order>, M: Store<Trade>>(
    engine: &mut Engine<S, O, M>,
    capture: &[u8],
    start: usize,
) -> Result<usize, PlayFault>
    ensures answer { result ≡ (played (engine_book S.Holds O.Holds M.Holds engine.old) capture.now start).0 }
    ensures after { engine_book S.Holds O.Holds M.Holds engine.new ≡ (played (engine_book S.Holds O.Holds M.Holds engine.old) capture.now start).1 }
{
    let capture = Capture::judge(capture)?;
    if start > capture.count() {
        return Err(PlayFault::Index(CaptureFault::StartsPast(start)));
    }
    for (pair, message) in capture.messages_from(start) {
        engine
            .feed(message)
            .map_err(|fault| PlayFault::Message(pair, fault))?;
    }
    Ok(capture.count() - start)
}
