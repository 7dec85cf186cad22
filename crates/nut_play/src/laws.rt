//! What holds of every room.

ghost use Rattle.nut_play.specs.Room.{RoomsHold};

use nut_fleet::{
    configurations_are_spoken, events_are_accepted, pipes_carry_beginnings, primaries_go_last,
    shutdowns_have_causes, statuses_were_shown,
};

/// States a law and does nothing when called: whatever schedule a fleet has played, its server and its monitors accepted
/// every event of it. Each pipe carries a beginning of what was put into it. Each status that a monitor has was shown by
/// the server. A monitor that began its shutdown had a cause. One that left Forcing waited for more than HOSTSYNC
/// seconds, or had a last count of at most 1 login on the UPS of each of its primary lines.
pub fn rooms_hold()
    ensures { RoomsHold }
{
    configurations_are_spoken();
    events_are_accepted();
    pipes_carry_beginnings();
    statuses_were_shown();
    shutdowns_have_causes();
    primaries_go_last();
}
