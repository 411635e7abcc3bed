ghost use Rattle.std.specs.Prelude.{◌≡◌, ◌≢◌, ℕ, ◌<◌, Some, None, IfOk};
ghost use Rattle.sess.specs.Places.{at, user_of};

use std::alloc::{AllocError, Global};
use std::marker::Model;

/// How many sessions there are.
const SESSIONS: usize = 64;

/// A session that is logged in.
#[derive(Clone, Copy, Debug, PartialEq, Eq)]
pub struct Session {
    /// The id of its user.
    pub user: u32,
}

/// The sessions, by their numbers from 0 to 63. Contracts see a place for each.
#[derive(Debug, Drop)]
pub struct Sessions {
    places: Vec<Option<Session>>,
}

impl Model for Sessions {
    ghost use Rattle.std.specs.Prelude.{◌≡◌, length};
    ghost use Rattle.sess.specs.Places.{Places};

    ghost Value = { Places };

    ghost view = { λ s. s.places.items };

    ghost invariant = { λ s. length s.places.items ≡ 64 };
}

impl Sessions {
    /// Nobody is logged in. Fails for want of memory alone.
    pub fn new(alloc: Global) -> Result<Sessions, AllocError>
        ensures { IfOk result (λ sessions. (n : ℕ) → at sessions n ≡ None) }
    {
        Ok(Sessions {
            places: Vec::from_array(alloc, [None; SESSIONS])?,
        })
    }

    /// The session is this user's from now on, whoever had it.
    pub fn login(&mut self, session: u8, user: u32)
        requires { session < 64 }
        ensures own { at self.new session ≡ Some (record { user = user }) }
        ensures others { (n : ℕ) → n ≢ session → at self.new n ≡ at self.old n }
    {
        self.places[session as usize] = Some(Session { user });
    }

    /// The session is nobody's from now on.
    pub fn logout(&mut self, session: u8)
        requires { session < 64 }
        ensures own { at self.new session ≡ None }
        ensures others { (n : ℕ) → n ≢ session → at self.new n ≡ at self.old n }
    {
        self.places[session as usize] = None;
    }

    /// The id of the user whose session it is, if it is anybody's.
    pub fn user(&self, session: u8) -> Option<u32>
        requires { session < 64 }
        ensures { result ≡ user_of (at self.now session) }
    {
        match self.places[session as usize] {
            Some(session) => Some(session.user),
            None => None,
        }
    }
}
