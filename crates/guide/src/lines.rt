// The lines of a session so far, and where a message stands beside them.
use crate::Message;
use person::Presence;

/// The lines of a session so far.
#[derive(Drop, Clone, Copy, Debug)]
pub(crate) struct Lines {
    pub(crate) presence: Presence,
    seen: u32,
    refused: u32,
}

impl Lines {
    /// None yet.
    pub(crate) fn new(presence: Presence) -> Lines {
        Lines {
            presence,
            seen: 0,
            refused: 0,
        }
    }

    /// Whether somebody is there.
    pub(crate) fn is_watched(&self) -> bool {
        self.presence != Presence::Away
    }

    /// A line comes.
    pub(crate) fn see(&mut self) {
        self.seen = self.seen.saturating_add(1);
    }

    /// The line is refused.
    pub(crate) fn refuse(&mut self) {
        self.refused = self.refused.saturating_add(1);
    }

    /// Puts what stands before a message about the line: two blanks, as a prompt is wide, or the line's number where nobody typed it.
    pub(crate) fn put_margin(&self, message: &mut Message) {
        if self.presence == Presence::Typing {
            message.put(b"  ");
        } else {
            message.put(b"line ");
            message.put_number(self.seen as usize);
            message.put(b": ");
        }
    }

    /// Puts how many lines were refused, where some were. A person who typed them gets a line feed behind the last prompt.
    pub(crate) fn put_end(&self, kind: &[u8], message: &mut Message) {
        if self.presence == Presence::Typing {
            message.put(b"\n");
        }
        if self.refused == 0 {
            return;
        }
        message.put_number(self.refused as usize);
        message.put(b" of ");
        message.put_number(self.seen as usize);
        message.put(b" lines were refused or are no ");
        message.put(kind);
        message.put(b" (exit status 1).\n");
    }
}
