//! A room that runs: one server and many monitors, each in its own loop, and the network between them. Definitions, and the
//! law by which the laws of rooms hold of it.
#![tactic(auto)]

ghost use Rattle.nut_running.specs.examples.Examples.{RunningExamples};
ghost use Rattle.nut_running.specs.Rooms.{RunningRoomsAreRooms};

use nut_state::every_table_holds;

/// States a law and does nothing when called: a room that runs is a room. Suppose that one `serve` and many `watch`es have
/// run, each by itself, and that bytes came only after they were sent, in order, on the connection that belongs to a call.
/// Then some schedule leads to their histories, and so the laws of rooms hold of them.
pub fn running_rooms_are_rooms()
    ensures { RunningRoomsAreRooms }
{
    every_table_holds();
}

/// States worked examples and does nothing when called: what a network carries, and what it doesn't.
pub fn worked_runs()
    ensures { RunningExamples }
{}
