//! A day over ordered tables of 512 places each, in memory from the heap.

#![tactic(auto)]

ghost use Rattle.std.specs.Prelude.{◌≡◌, ◌≤◌, length, IfOk};
ghost use Rattle.std.specs.IoError.{error_kind};
ghost use Rattle.small_day.specs.SmallDay.{Told, kind_of};
ghost use Rattle.small_day.specs.declared.DayError.TheVariants.{NoMemory as no_memory, Refused as refused};

use book::fault::BookFault;
use day::run;
use ordered::Ordered;
use std::alloc::{AllocError, Global};
use std::io;

/// Places in each store.
const PLACES: usize = 512;

/// Why there is nothing to tell.
#[derive(Clone, Copy, PartialEq, Eq)]
pub enum DayError {
    NoMemory,
    Refused(BookFault),
}

impl From<AllocError> for DayError {
    ghost from_gives = { λ _ r. r ≡ no_memory };

    fn from(_error: AllocError) -> DayError {
        DayError::NoMemory
    }
}

impl From<BookFault> for DayError {
    ghost from_gives = { λ fault r. r ≡ refused fault };

    fn from(fault: BookFault) -> DayError {
        DayError::Refused(fault)
    }
}

impl From<DayError> for io::Error {
    ghost from_gives = { λ error e. error_kind e ≡ kind_of error };

    fn from(error: DayError) -> io::Error {
        match error {
            DayError::NoMemory => io::Error::from(io::ErrorKind::OutOfMemory),
            DayError::Refused(_) => io::Error::from(io::ErrorKind::Other),
        }
    }
}

/// Plays a capture from its first pair, writes what there is to tell to the front of the buffer, and answers how many bytes.
pub fn tell(heap: Global, capture: &[u8], buf: &mut [u8]) -> Result<usize, DayError>
    ensures told { Told capture.now buf.old result buf.new }
    ensures within { IfOk result (λ n. n ≤ length buf.old) }
{
    let mut stocks = vec![in heap; None; PLACES]?;
    let mut orders = vec![in heap; None; PLACES]?;
    let mut trades = vec![in heap; None; PLACES]?;
    let told = run(
        Ordered::over(&mut stocks),
        Ordered::over(&mut orders),
        Ordered::over(&mut trades),
        capture,
        buf,
    );
    Ok(told?)
}
