// What the lines of a run over a rack are handed to.
ghost use Rattle.std.specs.Prelude.{◌≡◌};

use crate::line_rack::LineRack;
use crate::prompt::show_prompt;
use crate::rack_lines::RackLines;
use crate::tally::Tally;
use crate::why::why_of;
use eeprom::SinkFault;
use guide::{Guide, Occasion};
use line_input::LineAnswerer;
use person::Person;
use taken_line::TakenLine;

/// A rack that carries out the lines of a run, a person who is shown which reader is current, another one who is told of each line, and how the lines ended so far.
#[derive(Drop)]
pub(crate) struct RackRun<'a, 'b, R: LineRack, P: Person, N: Person> {
    pub(crate) rack: &'a mut R,
    pub(crate) person: &'a mut P,
    pub(crate) guide: &'b mut Guide<RackLines>,
    pub(crate) notices: &'b mut N,
    pub(crate) tally: Tally,
}

impl<'a, 'b, R: LineRack, P: Person, N: Person> LineAnswerer for RackRun<'a, 'b, R, P, N> {
    ghost use Rattle.std.proofs.Common.{◌∙◌, refl};
    ghost use Rattle.guide.proofs.Told.{told-none, told-then};
    ghost use Rattle.person.proofs.Texts.{shows-none};
    ghost use Rattle.person.specs.Showing.{Shows, ShowsSome};
    ghost use Rattle.rack_run.specs.Prompts.{prompts_behind};
    ghost use Rattle.rack_run.specs.ViewLaws.{CarriesOut-none, CarriesOut-then, prompts-then};
    ghost use Rattle.rack_run.specs.Views.{BreaksIn, CarriesOut};

    type Stop = SinkFault;

    ghost is_ready = { λ _. Unit {0} };

    ghost answers = { λ old lines new.
        (CarriesOut R.is_at R.is_live R.faults
        (record { readers = R.readers old.rack.now; current = R.current old.rack.now; given = R.given old.rack.now; sink = R.sink_faults old.rack.now; tally = old.tally })
        lines
        (record { readers = R.readers new.rack.now; current = R.current new.rack.now; given = R.given new.rack.now; sink = R.sink_faults new.rack.now; tally = new.tally })
        × Shows P.lost P.shown (prompts_behind (R.current old.rack.now) lines) old.person.now new.person.now
        × (new.rack.ghost_name ≡ old.rack.ghost_name) × (new.person.ghost_name ≡ old.person.ghost_name))
        × (ShowsSome N.lost N.shown old.notices.now new.notices.now × (new.notices.ghost_name ≡ old.notices.ghost_name)) };

    ghost stops = { λ old line stop new.
        (BreaksIn R.is_at R.is_live R.faults
        (record { readers = R.readers old.rack.now; current = R.current old.rack.now; given = R.given old.rack.now; sink = R.sink_faults old.rack.now; tally = old.tally })
        line
        (record { readers = R.readers new.rack.now; current = R.current new.rack.now; given = R.given new.rack.now; sink = R.sink_faults new.rack.now; tally = new.tally })
        × (new.person ≡ old.person) × (new.rack.ghost_name ≡ old.rack.ghost_name))
        × (ShowsSome N.lost N.shown old.notices.now new.notices.now × (new.notices.ghost_name ≡ old.notices.ghost_name)) };

    fn answer(&mut self, line: Option<TakenLine<'_>>) -> Result<(), SinkFault> {
        self.guide.tell(Occasion::Line { line }, self.notices);
        let end = self.rack.carry_out(line);
        self.tally.add(end)?;
        let outcome = Occasion::Outcome {
            line,
            why: why_of(end),
            cells: None,
        };
        self.guide.tell(outcome, self.notices);
        show_prompt(self.rack.current_reader(), self.person);
        Ok(())
    }

    ghost none = { λ a ready. ((CarriesOut-none _ _ _ _, shows-none P.lost P.shown a.person.now, refl, refl), (told-none N.lost N.shown a.notices.now, refl)) };

    ghost then = { λ a b c first second before behind. (
      (
        CarriesOut-then _ _ _ _ _ _ first second before.0.0 behind.0.0,
        prompts-then P.lost P.shown (R.current a.rack.now) (R.current b.rack.now) first second a.person.now b.person.now c.person.now before.0.0.current before.0.1 behind.0.1,
        behind.0.2 ∙ before.0.2,
        behind.0.3 ∙ before.0.3,
      ),
      (told-then N.lost N.shown a.notices.now b.notices.now c.notices.now before.1.0 behind.1.0, behind.1.1 ∙ before.1.1),
    ) };
}
