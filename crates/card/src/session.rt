// What is kept for an open channel.
ghost use Rattle.std.specs.Prelude.{◌≡◌, None, [], option_and_then, option_map, if◌then◌else◌};
ghost use Rattle.card.specs.Proved.{presents, proved, proved_stamp, unproved_stamp};

use apdu_chain::Pending;
use scql_base::{Cursor, PresentedUser};

/// The session of an open channel: its user, or nobody, its cursor, if it has one, and what is left of an answer.
#[derive(Drop)]
pub(crate) struct Session {
    pub user: Option<PresentedUser>,
    pub cursor: Option<Cursor>,
    pub pending: Pending,
}

impl Session {
    /// A new session of a user, or of nobody: it reads nothing.
    pub(crate) fn new(user: Option<PresentedUser>) -> Session
        ensures { result ≡ record { user = user; cursor = None; pending = [] } }
    {
        Session {
            user,
            cursor: None,
            pending: Pending::new(),
        }
    }

    /// The stamp of its user, where that one is proved.
    pub(crate) fn proved_user(&self) -> Option<u32>
        ensures { result ≡ option_and_then proved_stamp self.now.user }
    {
        let user = self.user?;
        if user.proved { Some(user.stamp) } else { None }
    }

    /// The stamp of its user, where that one isn't proved.
    pub(crate) fn unproved_user(&self) -> Option<u32>
        ensures { result ≡ option_and_then unproved_stamp self.now.user }
    {
        let user = self.user?;
        if user.proved { None } else { Some(user.stamp) }
    }

    /// Its user has shown the secret.
    pub(crate) fn prove(&mut self)
        ensures { self.new ≡ record self.old { user = option_map proved self.old.user } }
    {
        if let Some(user) = &mut self.user {
            user.proved = true;
        }
    }

    /// Where it presents the user of a stamp, it has neither user nor cursor any more.
    pub(crate) fn leave(&mut self, stamp: u32)
        ensures { self.new ≡ (if presents stamp self.old.user then record { user = None; cursor = None; pending = [] } else self.old) }
    {
        if self.presents(stamp) {
            *self = Session::new(None);
        }
    }

    fn presents(&self, stamp: u32) -> bool
        ensures { result ≡ presents stamp self.now.user }
    {
        self.user.is_some_and(|user| user.stamp == stamp)
    }
}
