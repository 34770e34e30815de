// Users are presented on two cards, and what is shown to the one is copied for the other.
ghost use Rattle.std.specs.Prelude.{IsTrue};
ghost use Rattle.table_copy.specs.Pieces.{CopyEnds};
ghost use Rattle.copy_run.specs.Copies as model;

use crate::names::CopyNames;
use card_asking::{Unpresented, present};
use card_link::CardLink;
use person::Person;
use table_copy::{CopyEnd, copy};

// Presents the destination's user, and copies what is shown to whoever is presented on the source.
fn copy_to<S: CardLink, D: CardLink, P: Person>(
    source: &mut S,
    dest: &mut D,
    names: &CopyNames,
    person: &mut P,
) -> CopyEnd
    requires live { IsTrue (S.is_live source.old) × IsTrue (D.is_live dest.old) }
    ensures { CopyEnds S.is_at S.is_live S.faults S.mark S.chip S.keeps S.goes_on D.is_at D.is_live D.faults D.mark D.chip D.keeps D.goes_on P.lost P.shown (λ s d. model.copy_to s d names.now) result
        source.old source.new dest.old dest.new person.old person.new }
{
    match present(dest, &names.dest_user) {
        Ok(()) => copy(source, dest, &names.object, &names.table, person),
        Err(Unpresented::Refused { word }) => CopyEnd::DestRefused { word },
        Err(Unpresented::Mute) => CopyEnd::DestMute,
    }
}

/// Presents both users, first the source's, and copies what is shown to it. Where one isn't presented no more is asked.
pub(crate) fn copy_for<S: CardLink, D: CardLink, P: Person>(
    source: &mut S,
    dest: &mut D,
    names: &CopyNames,
    person: &mut P,
) -> CopyEnd
    requires live { IsTrue (S.is_live source.old) × IsTrue (D.is_live dest.old) }
    ensures { CopyEnds S.is_at S.is_live S.faults S.mark S.chip S.keeps S.goes_on D.is_at D.is_live D.faults D.mark D.chip D.keeps D.goes_on P.lost P.shown (λ s d. model.copy_for s d names.now) result
        source.old source.new dest.old dest.new person.old person.new }
{
    match present(source, &names.source_user) {
        Ok(()) => copy_to(source, dest, names, person),
        Err(Unpresented::Refused { word }) => CopyEnd::SourceRefused { word },
        Err(Unpresented::Mute) => CopyEnd::SourceMute,
    }
}
