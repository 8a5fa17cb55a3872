//! The letters that fields may hold, as plain numbers.

// A rule of the project: each is a small function that matches a letter and answers with a plain number, so none of them is an enum.

#![tactic(auto)]

ghost use Rattle.std.specs.Prelude.{◌≡◌};
ghost use Rattle.codes.specs.Letters.{rank, events, categories, authenticities, sides, states, restrictions};

/// An event's number, in the order of the day.
pub fn event_number(code: char) -> Option<u8>
    ensures { result ≡ rank 0 events code }
{
    match code {
        'O' => Some(0),
        'S' => Some(1),
        'Q' => Some(2),
        'M' => Some(3),
        'E' => Some(4),
        'C' => Some(5),
        _ => None,
    }
}

/// A stock's category.
pub fn category_number(code: char) -> Option<u8>
    ensures { result ≡ rank 0 categories code }
{
    match code {
        'A' => Some(0),
        'N' => Some(1),
        'P' => Some(2),
        'Q' => Some(3),
        'V' => Some(4),
        'Z' => Some(5),
        ' ' => Some(6),
        _ => None,
    }
}

/// Whether a stock's entry is live or a test.
pub fn authenticity_number(code: char) -> Option<u8>
    ensures { result ≡ rank 0 authenticities code }
{
    match code {
        'P' => Some(0),
        'T' => Some(1),
        _ => None,
    }
}

/// Buy or sell.
pub fn side_number(code: char) -> Option<u8>
    ensures { result ≡ rank 0 sides code }
{
    match code {
        'B' => Some(0),
        'S' => Some(1),
        _ => None,
    }
}

/// Halted or trading.
pub fn state_number(code: char) -> Option<u8>
    ensures { result ≡ rank 0 states code }
{
    match code {
        'H' => Some(0),
        'T' => Some(1),
        _ => None,
    }
}

/// A short sale restriction.
pub fn restriction_number(code: char) -> Option<u8>
    ensures { result ≡ rank 0 restrictions code }
{
    match code {
        '0' => Some(0),
        '1' => Some(1),
        '2' => Some(2),
        _ => None,
    }
}
