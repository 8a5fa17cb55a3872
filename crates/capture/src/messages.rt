//! The messages of a capture, one after another.

ghost use Rattle.std.specs.Prelude.{◌-◌};
ghost use Rattle.std.specs.Iterator.{at_most};
ghost use Rattle.capture.specs.Messages.{Gives};

use crate::judged::Capture;

/// The messages of a capture from a pair on, each with its pair's number.
#[derive(Clone, Copy)]
pub struct Messages<'a> {
    pub(crate) capture: Capture<'a>,
    pub(crate) pair: usize,
}

impl<'a> Iterator for Messages<'a> {
    type Item = (usize, &'a [u8]);

    ghost next_gives = { Gives };

    ghost remaining = { λ s. at_most (s.capture.count - s.pair) };

    fn next(&mut self) -> Option<(usize, &'a [u8])> {
        let pair = self.pair;
        let message = self.capture.message(pair)?;
        self.pair += 1;
        Some((pair, message))
    }
}
