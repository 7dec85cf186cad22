//! A law of what waits for clients.

ghost use Rattle.nut_server_sockets.specs.Waits.{OneListWaits};

use nut_state::every_table_holds;

/// States a law and does nothing when called: if the configuration is within its files' limits, and the newest piece of a client
/// asked for one list at most, at most 643,682 bytes wait for the client. No piece that sockets give asks for two.
pub fn one_list_waits()
    ensures { OneListWaits }
{
    every_table_holds();
}
