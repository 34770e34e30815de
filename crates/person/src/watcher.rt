// A person at a screen.
ghost use Rattle.std.specs.Prelude.{◌≡◌, false};
ghost use Rattle.person.specs.Showing.{lost_on, shown_on};

use crate::{Person, Presence};

/// A person who follows a run at a screen, or nobody.
#[derive(Drop)]
pub struct Watcher<'a, P: Print + Drop> {
    screen: Option<P>,
    /// Whether the run's lines are typed by the one who reads what is shown.
    types: bool,
    /// What the run goes over: the name of a file, or nothing.
    title: &'a str,
    /// Something couldn't be printed.
    lost: bool,
}

impl<'a, P: Print + Drop> Watcher<'a, P> {
    /// Somebody who watches at a screen, or nobody.
    pub fn new(screen: Option<P>) -> Watcher<'a, P>
        ensures shown { ⟦<Watcher<'a, P> as Person>⟧.shown result ≡ shown_on screen }
        ensures lost { ⟦<Watcher<'a, P> as Person>⟧.lost result ≡ lost_on screen false }
    {
        Watcher {
            screen,
            types: false,
            title: "",
            lost: false,
        }
    }

    /// The same of a run over what has this title, whose lines somebody there may type.
    pub fn of_session(screen: Option<P>, types: bool, title: &'a str) -> Watcher<'a, P>
        ensures shown { ⟦<Watcher<'a, P> as Person>⟧.shown result ≡ shown_on screen }
        ensures lost { ⟦<Watcher<'a, P> as Person>⟧.lost result ≡ lost_on screen false }
    {
        Watcher {
            screen,
            types,
            title,
            lost: false,
        }
    }
}

impl<'a, P: Print + Drop> Person for Watcher<'a, P> {
    ghost shown = { λ watcher. shown_on watcher.screen };

    ghost lost = { λ watcher. lost_on watcher.screen watcher.lost };

    fn show(&mut self, text: &[u8]) {
        if self.lost {
            return;
        }
        if let Some(screen) = &self.screen {
            self.lost = screen.write_all(text).is_err();
        }
    }

    fn presence(&self) -> Presence {
        match &self.screen {
            None => Presence::Away,
            Some(_) if self.types => Presence::Typing,
            Some(_) => Presence::Watching,
        }
    }

    fn show_title(&mut self) {
        let title = self.title;
        self.show(title.as_bytes());
    }
}
