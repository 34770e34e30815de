// What is kept of the reading command that came last, for the next one.
ghost use Rattle.std.specs.Prelude.{◌≡◌, ◌==◌, None, option_map};
ghost use Rattle.std.proofs.lemmas.Map.Entries.{option_filter};

use db_read::Scan;
use scql_base::Actor;

/// Who acts on a channel.
#[derive(Clone, Copy)]
pub(crate) struct ChannelActor {
    pub(crate) channel: u8,
    pub(crate) actor: Actor,
}

/// For whom the last reading command was carried out, if it is kept, and what the channel's cursor goes over then.
#[derive(Drop)]
pub(crate) struct Found {
    pub(crate) last: Option<ChannelActor>,
    pub(crate) scan: Scan,
}

impl Found {
    /// Nothing was found yet.
    pub(crate) fn new() -> Found
        ensures { result ≡ record { last = None; scan = None } }
    {
        Found {
            last: None,
            scan: Scan::new(),
        }
    }

    /// Lets go what was found.
    pub(crate) fn forget(&mut self)
        ensures { self.new ≡ record { last = None; scan = None } }
    {
        self.last = None;
        self.scan.forget();
    }

    /// Who acts on a channel, where that one read last.
    pub(crate) fn actor_on(&self, channel: u8) -> Option<Actor>
        ensures { result ≡ option_map (λ last. last.actor) (option_filter (λ last. last.channel == channel) self.now.last) }
    {
        let last = self.last?;
        if last.channel == channel {
            Some(last.actor)
        } else {
            None
        }
    }
}
