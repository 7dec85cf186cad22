//! An open connection.

ghost use Rattle.std.specs.Prelude.{◌≡◌, ◌≤◌, ◌++◌, ◌↔◌, [], Some, IsTrue, drop, length, option_map, OnOk, OnErr};
ghost use Rattle.nut_words.specs.Cutter.{kept_of};
ghost use Rattle.nut_server_spec.specs.Acceptance.{may_read, leaves};
ghost use Rattle.nut_server_spec.specs.Answer.{is_logged_in};
ghost use Rattle.nut_server_spec.specs.Content.{fresh};
ghost use Rattle.nut_words.specs.Lines.{Text, lines};
ghost use Rattle.nut_server_spec.specs.machine.Machine.{with_rest};
ghost use Rattle.nut_server.specs.inside.Effects.{affected, said};
ghost use Rattle.nut_words.specs.Hearing.{IsRest};
ghost use Rattle.nut_server.specs.Settling.{is_unsettled};

use crate::address::Address;
use crate::credential::Credential;
use crate::effect::Effect;
use nut_queue::Outbox;
use nut_words::{LINE_MAX, LineCutter};
use std::alloc::{AllocError, Global};
use std::marker::Model;
use std::mem;

/// A connection: its number and address, what the client said of itself, its unfinished line, and the answers that
/// wait.
#[derive(Drop)]
pub struct Connection {
    number: u64,
    address: Address,
    user: Option<Credential>,
    password: Option<Credential>,
    login: Option<usize>,
    logged_out: bool,
    tracking: bool,
    cutter: LineCutter,
    outbox: Outbox,
}

impl Model for Connection {
    ghost use Rattle.nut_server_spec.specs.Content.{Session};
    ghost use Rattle.nut_words.specs.Hearing.{IsRest};

    ghost Value = { Session };

    ghost view = { λ k. record {
      number = k.number;
      address = k.address.items;
      user = k.user;
      password = k.password;
      login = k.login;
      logged_out = k.logged_out;
      tracking = k.tracking;
      rest = k.cutter;
      waits = k.outbox;
    } };

    ghost invariant = { λ k. IsRest k.cutter };
}

impl Connection {
    /// Returns a new connection: its client has said nothing.
    pub fn new(alloc: Global, number: u64, address: Address) -> Connection
        ensures { result ≡ fresh number address.items }
    {
        Connection {
            number,
            address,
            user: None,
            password: None,
            login: None,
            logged_out: false,
            tracking: false,
            cutter: LineCutter::new(),
            outbox: Outbox::new(alloc),
        }
    }

    /// Returns the number of the connection.
    pub fn number(&self) -> u64
        ensures { result ≡ self.now.number }
    {
        self.number
    }

    /// Returns the address of the client.
    pub fn address(&self) -> &[u8]
        ensures { result.now ≡ self.now.address }
    {
        self.address.as_slice()
    }

    /// Returns the user name that the client gave, if it gave one.
    pub fn user(&self) -> Option<&[u8]>
        ensures { option_map (λ text. text.now) result ≡ self.now.user }
    {
        match &self.user {
            Some(user) => Some(user.as_bytes()),
            None => None,
        }
    }

    /// Returns the password that the client gave, if it gave one.
    pub fn password(&self) -> Option<&[u8]>
        ensures { option_map (λ text. text.now) result ≡ self.now.password }
    {
        match &self.password {
            Some(password) => Some(password.as_bytes()),
            None => None,
        }
    }

    /// Returns the number of the UPS that the client is logged in to, if it is.
    pub fn login(&self) -> Option<usize>
        ensures { result ≡ self.now.login }
    {
        self.login
    }

    /// Whether the client is logged in to this UPS.
    pub fn is_logged_in(&self, u: usize) -> bool
        ensures { result ≡ is_logged_in u self.now.login }
    {
        match self.login {
            Some(ups) => ups == u,
            None => false,
        }
    }

    /// Whether the client has logged out.
    pub fn has_logged_out(&self) -> bool
        ensures { result ≡ self.now.logged_out }
    {
        self.logged_out
    }

    /// Whether the client's requests are tracked.
    pub fn tracks_requests(&self) -> bool
        ensures { result ≡ self.now.tracking }
    {
        self.tracking
    }

    /// Returns how many bytes wait for the client.
    pub fn waits(&self) -> usize
        ensures { result ≡ length self.now.waits }
    {
        self.outbox.len()
    }

    /// Returns all bytes that wait for the client.
    pub fn waiting(&self) -> &[u8]
        ensures { result.now ≡ self.now.waits }
    {
        self.outbox.front()
    }

    /// Whether the connection may be read from: nothing waits for the client, and it hasn't logged out.
    pub fn may_read(&self) -> bool
        ensures { result ≡ may_read (Some self.now) }
    {
        self.waits() == 0 && !self.logged_out
    }

    /// Whether the connection is to be closed: the client has logged out, and nothing waits for it.
    pub fn leaves(&self) -> bool
        ensures { result ≡ leaves (Some self.now) }
    {
        self.waits() == 0 && self.logged_out
    }

    /// Whether bytes wait for the client, or the connection is to be closed.
    pub fn is_unsettled(&self) -> bool
        ensures { result ≡ is_unsettled (Some self.now) }
    {
        self.waits() > 0 || self.leaves()
    }

    /// Returns how many bytes of an unfinished line are kept.
    pub fn kept(&self) -> usize
        ensures value { result ≡ kept_of self.now.rest }
        ensures within { result ≤ LINE_MAX }
    {
        self.cutter.kept()
    }

    /// Queues the answer to a line, in two parts, and changes the connection as the line does. If memory cannot be allocated,
    /// nothing changes.
    pub fn answer(
        &mut self,
        front: &[u8],
        end: &[u8],
        effect: &Effect<'_>,
    ) -> Result<(), AllocError>
        ensures number { self.new.number ≡ self.old.number }
        ensures ok { OnOk result (self.new ≡ affected effect.now (said (front.now ++ end.now) self.old)) }
        ensures err { OnErr result (self.new ≡ self.old) }
    {
        self.outbox.push_both(front, end)?;
        self.apply(effect);
        Ok(())
    }

    fn apply(&mut self, effect: &Effect<'_>)
        ensures number { self.new.number ≡ self.old.number }
        ensures value { self.new ≡ affected effect.now self.old }
    {
        match effect {
            Effect::Nothing | Effect::Force(_) | Effect::Ask(_, _) => {}
            Effect::User(user) => self.user = Some(user.copied()),
            Effect::Password(password) => self.password = Some(password.copied()),
            Effect::Login(u) => self.login = Some(*u),
            Effect::Tracking(on) => self.tracking = *on,
            Effect::Logout => {
                self.login = None;
                self.logged_out = true;
            }
        }
    }

    /// Whether nothing of a line is kept.
    pub fn is_at_start(&self) -> bool
        ensures { IsTrue result ↔ (self.now.rest ≡ Text []) }
    {
        self.cutter.is_at_start()
    }

    /// Takes the cutter out, and leaves an empty one in its place.
    pub fn take_cutter(&mut self) -> LineCutter
        ensures taken { result ≡ self.old.rest }
        ensures rest { IsRest result }
        ensures left { self.new ≡ with_rest (Text []) self.old }
    {
        mem::take(&mut self.cutter)
    }

    /// Puts the cutter back.
    pub fn put_cutter(&mut self, cutter: LineCutter)
        requires { IsRest cutter }
        ensures { self.new ≡ with_rest cutter self.old }
    {
        self.cutter = cutter;
    }

    /// Removes the first `n` of the bytes that wait: the client took them.
    pub fn took(&mut self, n: usize)
        requires { n ≤ length self.old.waits }
        ensures { self.new ≡ record self.old { waits = drop n self.old.waits } }
    {
        self.outbox.took(n);
    }
}
