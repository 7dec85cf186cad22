//! Laws of the looks at sources.

ghost use Rattle.nut_poll.specs.Turns.{EachHasItsTurn, LooksGoOn, NobodyIsPassedOver, OthersComeOnce};

/// States laws and does nothing when called: none of the sources that wait in a queue is passed over. Between two looks
/// at a source, each other source that waited was looked at, and a source waits for each other at most once.
pub fn nobody_is_passed_over()
    ensures goes_on { LooksGoOn }
    ensures between { NobodyIsPassedOver }
    ensures turn { EachHasItsTurn }
    ensures once { OthersComeOnce }
{}
