// The run of a copy: two users are presented, rows are copied from reader 1 to reader 2, and one line says how it ended.
ghost use Rattle.std.specs.Prelude.{◌≡◌, ◌↔◌, ◌∷◌, map, IfSome, IsSomeAnd, IsTrue, None};
ghost use Rattle.std.specs.String.{string_bytes};
ghost use Rattle.scql_model.specs.Machine.{Machine};
ghost use Rattle.card_link.specs.Link.{IsOneOf, LeavesOpen};
ghost use Rattle.reader_rack.specs.Racks.{answers_at, link_at};
ghost use Rattle.table_copy.specs.Leaving.{ReadsOver};
ghost use Rattle.table_copy.specs.declared.copy_end.CopyEnd.{CopyEnd as ModelEnd};
ghost use Rattle.copy_run.specs.Copies as model;
ghost use Rattle.copy_run.specs.Racks.{LinkBecomes, LinksChange};
ghost use Rattle.copy_run.specs.Runs.{IsRun, Says};

use crate::CopyStatus;
use crate::lending::copy_named;
use crate::names::names_of;
use crate::text::copy_text;
use card_link::CardLink;
use eeprom::Outlet;
use person::Person;
use reader_rack::Rack;
use table_copy::CopyEnd;

/// Presents a user on reader 1 and one on reader 2, copies from reader 1 to reader 2 what is shown there of an object into a table, and gives one line that says how it ended. The words are SUSER OBJECT DUSER TABLE.
pub fn run_copy<O: Outlet, L: CardLink, P: Person>(
    words: &[String],
    rack: &mut Rack<O, L>,
    person: &mut P,
) -> CopyStatus
    requires live { IsTrue (answers_at L.is_live rack.old.readers 1) × IsTrue (answers_at L.is_live rack.old.readers 2) }
    ensures usage { (result ≡ CopyStatus.Usage) ↔ (model.names_in (map string_bytes words.now) ≡ None) }
    ensures unasked { result ≡ CopyStatus.Usage → (rack.new ≡ rack.old) × (person.new ≡ person.old) }
    ensures runs { IfSome (model.names_in (map string_bytes words.now)) (λ names. (end : ModelEnd)
        × IsRun L.is_at L.is_live L.faults P.lost P.shown names rack.old.readers rack.new.readers rack.old.current.number person.old person.new end
        × Says end result (O.given rack.old.outlet) (O.given rack.new.outlet) (O.sink_faults rack.old.outlet) (O.sink_faults rack.new.outlet)) }
    ensures read { LinkBecomes 1 rack.old.readers rack.new.readers (λ link later. (s : Machine) → L.is_at link s → ReadsOver L.is_at L.is_live L.mark L.chip s link later) }
    ensures dest_moments { IfSome (model.names_in (map string_bytes words.now)) (λ names. IsSomeAnd (link_at rack.old.readers 1) (λ source. LinkBecomes 2 rack.old.readers rack.new.readers (λ link later.
        (s d : Machine) → L.is_at source s → L.is_at link d
        → LeavesOpen (IsOneOf (L.mark link) (d.committed ∷ (model.copy_for s d names).commits)) (L.chip link) (L.chip later)))) }
    ensures links { LinksChange 1 2 rack.old.readers rack.new.readers }
    ensures current { rack.new.current ≡ rack.old.current }
{
    let Some(names) = names_of(words) else {
        return CopyStatus::Usage;
    };
    let end = copy_named(rack, 1, 2, &names, person);
    say(rack, end)
}

// Gives the line of how a copy ended.
fn say<O: Outlet, L: CardLink>(rack: &mut Rack<O, L>, end: CopyEnd) -> CopyStatus
    ensures says { Says end result (O.given rack.old.outlet) (O.given rack.new.outlet) (O.sink_faults rack.old.outlet) (O.sink_faults rack.new.outlet) }
    ensures readers { (rack.new.readers ≡ rack.old.readers) × (rack.new.current ≡ rack.old.current) }
{
    match rack.give(&copy_text(end)) {
        Ok(()) => CopyStatus::of(end),
        Err(_) => CopyStatus::WriteFault,
    }
}
