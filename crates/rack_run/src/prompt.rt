// The prompt of a person who types lines.
ghost use Rattle.person.specs.Showing.{Shows};
ghost use Rattle.reader_rack.specs.Statements.{IsReader};
ghost use Rattle.rack_run.specs.Prompts.{prompt};

use person::Person;

/// Shows which reader is current.
pub(crate) fn show_prompt<P: Person>(current: u8, person: &mut P)
    requires { IsReader current }
    ensures { Shows P.lost P.shown (prompt current) person.old person.new }
{
    person.show(&[b'0' + current, b'>', b' ']);
}
