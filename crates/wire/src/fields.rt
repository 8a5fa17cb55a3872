//! The questions that a field must pass, one function for each.

ghost use Rattle.std.specs.Prelude.{◌≡◌, ◌*◌, ◌≤◌, false, is_some, nat_le};
ghost use Rattle.std.specs.Range.{range_inclusive_start, range_inclusive_end, range_inclusive_exhausted};
ghost use Rattle.wire.specs.Judging.{judged, verdict};
ghost use Rattle.wire.specs.Table.{num, within, figure};
ghost use Rattle.wire.specs.declared.fault.FieldsFault.TheVariants.{UnlistedCode as unlisted, OverLimit as over_limit};

use crate::fault::FieldsFault;
use std::ops::RangeInclusive;

/// The most shares that a message may speak of.
pub(crate) const MOST_SHARES: u64 = 1_000_000;

/// The highest price.
pub(crate) const MOST_PRICE: u64 = 2_000_000_000;

// A question's answer: nothing, or the fault where it is no.
pub(crate) fn ask(passed: bool, fault: FieldsFault) -> Result<(), FieldsFault>
    ensures { result ≡ verdict passed fault }
{
    if passed { Ok(()) } else { Err(fault) }
}

// Question 6: is the code, whose number this is, listed?
pub(crate) fn listed(number: Option<u8>, place: usize) -> Result<(), FieldsFault>
    ensures { result ≡ verdict (is_some number) (unlisted place) }
{
    ask(number.is_some(), FieldsFault::UnlistedCode(place))
}

// Question 7: is the number within these bounds?
pub(crate) fn within(
    value: u64,
    bounds: RangeInclusive<u64>,
    place: usize,
) -> Result<(), FieldsFault>
    requires { range_inclusive_exhausted bounds ≡ false }
    ensures { result ≡ judged (num place 8 (within (range_inclusive_start bounds) (range_inclusive_end bounds))) (figure value) }
{
    ask(bounds.contains(&value), FieldsFault::OutOfBounds(place))
}

// Question 8: is price times shares, both within bounds, within its limit?
pub(crate) fn product_within(price: u64, shares: u32, place: usize) -> Result<(), FieldsFault>
    requires { (price ≤ 2000000000) × (shares ≤ 1000000) }
    ensures { result ≡ verdict (nat_le (price * shares) 100000000000000) (over_limit place) }
{
    ask(
        price * shares as u64 <= 100_000_000_000_000,
        FieldsFault::OverLimit(place),
    )
}
