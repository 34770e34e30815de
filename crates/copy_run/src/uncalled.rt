// What a run doesn't call: it presents a user on each card first. A program whose users are presented already copies so.
ghost use Rattle.table_copy.specs.Copy as model;
ghost use Rattle.copy_run.specs.Racks.{CopiesBetween, MayCopy};

use card_link::CardLink;
use eeprom::Outlet;
use person::Person;
use reader_rack::Rack;
use scql_base::Name;
use table_copy::{CopyEnd, copy};

/// Copies the rows that one reader's card shows of an object into a table of another reader's card, all of them or none, on channel 0 of both, as whoever is presented there.
/// The terminals of both readers stay right, since both cards keep the channel of an open transaction.
pub fn copy_shown<O: Outlet, L: CardLink, P: Person>(
    rack: &mut Rack<O, L>,
    from: u8,
    to: u8,
    object: Name,
    table: Name,
    person: &mut P,
) -> CopyEnd
    requires { MayCopy L.is_live rack.old.readers from to }
    ensures { CopiesBetween L.is_at L.is_live L.faults L.mark L.chip P.lost P.shown from to (λ s d. model.copy s d object table) result rack.old rack.new person.old person.new }
{
    let mut source = rack.take(from);
    let mut dest = rack.take(to);
    let end = copy(&mut source, &mut dest, &object, &table, person);
    rack.put_back(from, source);
    rack.put_back(to, dest);
    end
}
