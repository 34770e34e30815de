// What is kept for an open channel.
ghost use Rattle.std.specs.Prelude.{◌≡◌};
ghost use Rattle.scql_model.specs.Machine.{no_reading};
ghost use Rattle.plain_machine.specs.Sessions.{left_session, proved_session};

use plain_reading::Reading;
use scql_base::PresentedUser;

/// The session of an open channel: its user, or nobody, and what it reads.
#[derive(Drop)]
pub(crate) struct Session {
    pub user: Option<PresentedUser>,
    pub reading: Reading,
}

impl Session {
    /// A new session of a user, or of nobody.
    pub(crate) fn new(user: Option<PresentedUser>) -> Session
        ensures { result ≡ record { user = user; reading = no_reading } }
    {
        Session {
            user,
            reading: Reading::new(),
        }
    }

    /// Its user has shown the secret.
    pub(crate) fn prove(&mut self)
        ensures { self.new ≡ proved_session self.old }
    {
        if let Some(user) = &mut self.user {
            user.proved = true;
        }
    }

    /// Where it presents the user of a stamp, it has neither user nor cursor any more.
    pub(crate) fn leave(&mut self, stamp: u32)
        ensures { self.new ≡ left_session stamp self.old }
    {
        if self.user.is_some_and(|user| user.stamp == stamp) {
            *self = Session::new(None);
        }
    }
}
