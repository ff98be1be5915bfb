//! Laws of a turned page. These functions do nothing; their contracts are the laws.

ghost use Rattle.vx_count.specs.Turned.{TurnsBack};

/// A page that is turned twice is as before.
pub fn turned_twice_is_as_before()
    ensures { TurnsBack }
{}
