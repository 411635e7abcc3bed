// Who is logged in.
use sess::Sessions;
use std::alloc::{AllocError, Global};

/// Who is logged in at each of some sessions, in front of and behind logins and a logout.
pub(crate) fn show(alloc: Global) -> Result<String, AllocError> {
    let mut sessions = Sessions::new(alloc)?;
    let before = sessions.user(5);
    sessions.login(5, 70);
    sessions.login(63, 80);
    let logged = [sessions.user(0), sessions.user(5), sessions.user(63)];
    sessions.login(5, 90);
    sessions.logout(63);
    let after = [sessions.user(5), sessions.user(63)];
    format!(in alloc; "{before:?} {logged:?} {after:?}")
}
