//! The laws over runs: what the readings of an engine say of the messages that it accepted.

#![tactic(auto)]

ghost use Rattle.std.specs.Prelude.{◌≡◌, true};
ghost use Rattle.laws.specs.Laws.{Laws};

/// The laws stand, at every moment of every run, for every locate and every match number.
pub fn laws_stand() -> bool
    ensures answer { result ≡ true }
    ensures laws { Laws }
{
    true
}
