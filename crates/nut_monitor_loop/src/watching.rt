//! The loop over any world.

ghost use Rattle.std.specs.Prelude.{◌≡◌, ◌⊎◌, ◌-◌, ◌^◌, ◌<◌, ℕ, true, false, [], length, slice_get, Option, Some, None, Ok, IfOk, OnOk, OnErr, is_ok, if◌then◌else◌, ◌+◌, option_map};
ghost use Rattle.nut_monitor_spec.specs.Content.{content, phase_of};
ghost use Rattle.nut_monitor_spec.specs.Decision.{is_halted};
ghost use Rattle.nut_monitor.specs.Events.{event_of as told_as};
ghost use Rattle.nut_monitor_loop.specs.Record.{waiting_of, IsSettled, NothingIsWithheld, event_given};
ghost use Rattle.nut_monitor_loop.specs.Watched.{Since, Watched, WatchedBefore, sender, lost_of};
ghost use Rattle.nut_monitor_loop.specs.inside.Kept.{Ready, Goes, OnlyAt, StaysLate, KeepsLate, Less, Settles, Unbroken};

use crate::{MonWorld, Next};
use nut_io::{Fault, Piece, ServeFault, Written};
use nut_monitor::{Event, Monitor, Notice, Phase};
use std::sync::Wait;

/// Watches until the machine has to be halted or the world ends. Returns the phase.
///
/// The monitor has to be new. It gets each event of the world, and the result of each write. Before the loop asks
/// for the next event, it offers the bytes that wait on each link, until they are written or the world accepts no
/// more. It closes each link that the monitor dropped by itself, or that a failed write ended; all others stay. It
/// hands each notice to the world.
///
/// At the return, with or without an error, the monitor's content is that of a history of accepted events that follows
/// from what the world did. The bytes that the world accepted for each link since it was made are those that were sent
/// on it. The notices that the world was handed are those of the history, in order; after an error some may still
/// wait.
///
/// # Errors
///
/// `ServeFault::World` if a call of the world returned a fault. If it was `next`, the machine need not be halted then.
pub fn watch<W: MonWorld>(
    rt: &impl Wait,
    monitor: &mut Monitor,
    world: &mut W,
) -> Result<Phase, ServeFault>
    requires fresh { monitor.old.content ≡ content monitor.old.content.configuration [] }
    requires few { W.fault_count world.old < 2 ^ 64 - 1 }
    ensures err { OnErr result ((owed : Option ℕ)
        × Watched monitor.old.content.configuration (W.did monitor.old.config world.old world.new) monitor.new.content owed) }
    ensures ok { OnOk result
        (Watched monitor.old.content.configuration (W.did monitor.old.config world.old world.new) monitor.new.content None) }
    ensures phase { IfOk result (λ phase. phase ≡ phase_of monitor.new.content) }
    ensures told { OnOk result (monitor.new.content.notices ≡ []) }
    ensures ended { IfOk result (λ phase. (is_halted phase ≡ true) ⊎ W.has_ended world.new monitor.new) }
    ensures fault { W.fault_count world.new ≡ (if is_ok result then W.fault_count world.old else W.fault_count world.old + 1) }
    ensures going { OnErr result (W.failed_at_next world.new → is_halted (phase_of monitor.new.content) ≡ false) }
    ensures config { monitor.new.config ≡ monitor.old.config }
{
    let mut piece = Piece::new();
    let phase = go_on(rt, monitor, world, &mut piece);
    // dropped by a call, which keeps the proof of this function short
    drop(piece);
    phase
}

/// Continues the loop of `watch` from where it is. The world puts the bytes of its events into the piece.
fn go_on<W: MonWorld>(
    rt: &impl Wait,
    monitor: &mut Monitor,
    world: &mut W,
    piece: &mut Piece,
) -> Result<Phase, ServeFault>
    ghost since: { Since W }
    requires ready { Ready W.fault_count W.did since world.old monitor.old }
    ensures goes { Goes W.fault_count W.did since world.old result world.new monitor.new }
    ensures going { OnErr result (W.failed_at_next world.new → is_halted (phase_of monitor.new.content) ≡ false) }
    ensures phase { IfOk result (λ phase. phase ≡ phase_of monitor.new.content) }
    ensures told { OnOk result (monitor.new.content.notices ≡ []) }
    ensures ended { IfOk result (λ phase. (is_halted phase ≡ true) ⊎ W.has_ended world.new monitor.new) }
{
    for _ in rt.forever() {
        if !round(monitor, world, piece)? {
            return Ok(monitor.phase());
        }
    }
    unreachable!()
}

/// Hands over the notices, writes what waits, and handles the next event, unless the machine has to be halted. Returns
/// whether the loop continues.
fn round<W: MonWorld>(
    monitor: &mut Monitor,
    world: &mut W,
    piece: &mut Piece,
) -> Result<bool, Fault>
    ghost since: { Since W }
    requires ready { Ready W.fault_count W.did since world.old monitor.old }
    ensures goes { Goes W.fault_count W.did since world.old result world.new monitor.new }
    ensures going { OnErr result (W.failed_at_next world.new → is_halted (phase_of monitor.new.content) ≡ false) }
    ensures told { result ≡ Ok false → monitor.new.content.notices ≡ [] }
    ensures ended { result ≡ Ok false → (is_halted (phase_of monitor.new.content) ≡ true) ⊎ W.has_ended world.new monitor.new }
{
    tell_all(monitor, world)?;
    // A lost link brings a notice, and may let queries be put on other links. So after a failed write all begins again.
    if !settle_links(monitor, world)? {
        return Ok(true);
    }
    turn(monitor, world, piece)
}

/// Asks for the next event, unless the machine has to be halted, and handles it. Returns whether the loop
/// continues.
fn turn<W: MonWorld>(monitor: &mut Monitor, world: &mut W, piece: &mut Piece) -> Result<bool, Fault>
    ghost since: { Since W }
    requires ready { Ready W.fault_count W.did since world.old monitor.old }
    requires withheld { NothingIsWithheld (W.late world.old) monitor.old.content }
    requires told { monitor.old.content.notices ≡ [] }
    ensures goes { Goes W.fault_count W.did since world.old result world.new monitor.new }
    ensures going { OnErr result (W.failed_at_next world.new → is_halted (phase_of monitor.new.content) ≡ false) }
    ensures told { result ≡ Ok false → monitor.new.content.notices ≡ [] }
    ensures ended { result ≡ Ok false → (is_halted (phase_of monitor.new.content) ≡ true) ⊎ W.has_ended world.new monitor.new }
{
    if has_halted(monitor) {
        return Ok(false);
    }
    let next = world.next(monitor, piece)?;
    if let Next::End = next {
        return Ok(false);
    }
    hand_on(monitor, world, &next, piece)?;
    Ok(true)
}

/// Whether the machine has to be halted.
fn has_halted(monitor: &Monitor) -> bool
    ensures { result ≡ is_halted (phase_of monitor.now.content) }
{
    match monitor.phase() {
        Phase::Halted { .. } => true,
        Phase::Watching | Phase::Forcing | Phase::Final => false,
    }
}

/// Passes the event that the world gave, if it gave one, to the monitor, and closes the link that the monitor dropped
/// at it.
fn hand_on<W: MonWorld>(
    monitor: &mut Monitor,
    world: &mut W,
    next: &Next,
    piece: &Piece,
) -> Result<(), Fault>
    ghost since: { Since W }
    requires few { W.fault_count world.old < 2 ^ 64 - 1 }
    requires told { monitor.old.content.notices ≡ [] }
    requires watched { WatchedBefore since.first (W.awaits since.config since.start world.old) (W.did since.config since.start world.old)
        monitor.old.content next.now piece.now.items }
    requires config { monitor.old.config ≡ since.config }
    ensures goes { Goes W.fault_count W.did since world.old result world.new monitor.new }
    ensures elsewhere { OnErr result (W.failed_at_next world.new → ⊥) }
{
    let Some(event) = event_of(next, piece) else {
        return Ok(());
    };
    let sender = sender_of(monitor, event);
    let _ = monitor.step(event);
    world.told(monitor, event);
    match lost_link(monitor, sender) {
        None => Ok(()),
        Some(i) => world.close(monitor, i),
    }
}

/// Returns the event that the world gave, if it gave one.
fn event_of<'a>(next: &'a Next, piece: &'a Piece) -> Option<Event<'a>>
    ensures { option_map told_as result ≡ event_given next.now piece.now.items }
{
    match next {
        Next::Moment(t) => Some(Event::Moment(*t)),
        Next::Linked(i) => Some(Event::Linked(*i)),
        Next::LinkBytes(i) => Some(Event::LinkBytes(*i, piece.as_slice())),
        Next::LinkLost(i) => Some(Event::LinkLost(*i)),
        Next::Again | Next::End => None,
    }
}

/// Returns the link on which a piece comes, if the event is a piece and that link is up.
fn sender_of(monitor: &Monitor, event: Event<'_>) -> Option<usize>
    ensures { result ≡ sender (told_as event.entry) monitor.now.content }
{
    match event {
        Event::LinkBytes(i, _) if monitor.linked(i) => Some(i),
        Event::LinkBytes(_, _)
        | Event::Moment(_)
        | Event::Linked(_)
        | Event::LinkLost(_)
        | Event::LinkTook(_, _) => None,
    }
}

/// Returns the link that sent a piece, if it is no longer up.
fn lost_link(monitor: &Monitor, sender: Option<usize>) -> Option<usize>
    ensures { result ≡ lost_of sender monitor.now.content }
{
    let i = sender?;
    if monitor.linked(i) { None } else { Some(i) }
}

/// Writes what waits on each link, as far as the world takes it. Stops at the first write that fails. Returns whether
/// none failed.
fn settle_links<W: MonWorld>(monitor: &mut Monitor, world: &mut W) -> Result<bool, Fault>
    ghost since: { Since W }
    requires ready { Ready W.fault_count W.did since world.old monitor.old }
    requires told { monitor.old.content.notices ≡ [] }
    ensures goes { Goes W.fault_count W.did since world.old result world.new monitor.new }
    ensures elsewhere { OnErr result (W.failed_at_next world.new → ⊥) }
    ensures withheld { result ≡ Ok true → NothingIsWithheld (W.late world.new) monitor.new.content }
    ensures told { result ≡ Ok true → monitor.new.content.notices ≡ [] }
{
    let lines = monitor.lines();
    let mut i = 0;
    while i < lines {
        if !flush(monitor, world, i)? {
            return Ok(false);
        }
        i += 1;
    }
    Ok(true)
}

/// Writes until all that waits on a link is written or the world accepts no more. Returns whether all writes
/// succeeded.
fn flush<W: MonWorld>(monitor: &mut Monitor, world: &mut W, i: usize) -> Result<bool, Fault>
    ghost since: { Since W }
    requires ready { Ready W.fault_count W.did since world.old monitor.old }
    requires told { monitor.old.content.notices ≡ [] }
    ensures goes { Goes W.fault_count W.did since world.old result world.new monitor.new }
    ensures elsewhere { OnErr result (W.failed_at_next world.new → ⊥) }
    ensures settled { result ≡ Ok true → IsSettled (W.late world.new) monitor.new.content.watches i }
    ensures only { result ≡ Ok true → OnlyAt i monitor.old.content monitor.new.content }
    ensures late { OnOk result (StaysLate (W.late world.old) (W.late world.new)) }
{
    while monitor.waiting(i).len() > 0 {
        match write_once(monitor, world, i)? {
            Written::Took(_) => {}
            Written::Later => return Ok(true),
            Written::Failed => return Ok(false),
        }
    }
    Ok(true)
}

/// Offers what waits on a link to the world once, and passes the result to the monitor.
fn write_once<W: MonWorld>(monitor: &mut Monitor, world: &mut W, i: usize) -> Result<Written, Fault>
    ghost since: { Since W }
    requires ready { Ready W.fault_count W.did since world.old monitor.old }
    requires some { 0 < length (waiting_of i monitor.old.content.watches) }
    requires told { monitor.old.content.notices ≡ [] }
    ensures goes { Goes W.fault_count W.did since world.old result world.new monitor.new }
    ensures elsewhere { OnErr result (W.failed_at_next world.new → ⊥) }
    ensures less { IfOk result (λ w. Less w i monitor.old.content.watches monitor.new.content.watches) }
    ensures settled { IfOk result (λ w. Settles w (W.late world.new) monitor.new.content.watches i) }
    ensures only { IfOk result (λ w. Unbroken w i monitor.old.content monitor.new.content) }
    ensures late { OnOk result (StaysLate (W.late world.old) (W.late world.new)) }
{
    match world.write(monitor, i, monitor.waiting(i))? {
        Written::Took(n) => {
            let _ = monitor.step(Event::LinkTook(i, n));
            Ok(Written::Took(n))
        }
        Written::Later => Ok(Written::Later),
        Written::Failed => {
            let _ = monitor.step(Event::LinkLost(i));
            world.close(monitor, i)?;
            Ok(Written::Failed)
        }
    }
}

/// Hands each waiting notice to the world, the oldest first. No link changes.
fn tell_all<W: MonWorld>(monitor: &mut Monitor, world: &mut W) -> Result<(), Fault>
    ghost since: { Since W }
    requires ready { Ready W.fault_count W.did since world.old monitor.old }
    ensures goes { Goes W.fault_count W.did since world.old result world.new monitor.new }
    ensures elsewhere { OnErr result (W.failed_at_next world.new → ⊥) }
    ensures told { OnOk result (monitor.new.content.notices ≡ []) }
    ensures watches { OnOk result (monitor.new.content.watches ≡ monitor.old.content.watches) }
    ensures late { OnOk result (KeepsLate (W.late world.old) (W.late world.new)) }
{
    while let Some(notice) = monitor.first_notice() {
        tell(monitor, world, notice)?;
    }
    Ok(())
}

/// Hands the oldest notice to the world and removes it from the monitor.
fn tell<W: MonWorld>(monitor: &mut Monitor, world: &mut W, notice: Notice) -> Result<(), Fault>
    ghost since: { Since W }
    requires ready { Ready W.fault_count W.did since world.old monitor.old }
    requires oldest { slice_get monitor.old.content.notices 0 ≡ Some notice }
    ensures goes { Goes W.fault_count W.did since world.old result world.new monitor.new }
    ensures elsewhere { OnErr result (W.failed_at_next world.new → ⊥) }
    ensures less { OnOk result (length monitor.new.content.notices < length monitor.old.content.notices) }
    ensures watches { OnOk result (monitor.new.content.watches ≡ monitor.old.content.watches) }
    ensures late { OnOk result (KeepsLate (W.late world.old) (W.late world.new)) }
{
    world.notice(monitor, notice)?;
    let _ = monitor.take_notice();
    Ok(())
}
