// The links of two readers of a rack, lent for a copy from the one to the other, each for a user.
ghost use Rattle.copy_run.specs.Copies as copies;
ghost use Rattle.copy_run.specs.Racks.{CopiesBetween, MayCopy};

use crate::names::CopyNames;
use crate::presenting::copy_for;
use card_link::CardLink;
use eeprom::Outlet;
use person::Person;
use reader_rack::Rack;
use table_copy::CopyEnd;

/// Presents a user on each of two readers' cards, first on the source's, and copies so between them.
pub(crate) fn copy_named<O: Outlet, L: CardLink, P: Person>(
    rack: &mut Rack<O, L>,
    from: u8,
    to: u8,
    names: &CopyNames,
    person: &mut P,
) -> CopyEnd
    requires { MayCopy L.is_live rack.old.readers from to }
    ensures { CopiesBetween L.is_at L.is_live L.faults L.mark L.chip P.lost P.shown from to (λ s d. copies.copy_for s d names.now) result rack.old rack.new person.old person.new }
{
    let mut source = rack.take(from);
    let mut dest = rack.take(to);
    let end = copy_for(&mut source, &mut dest, names, person);
    rack.put_back(from, source);
    rack.put_back(to, dest);
    end
}
