// The run of a card by the words of the command line: the program's one call.
ghost use Rattle.std.specs.Prelude.{◌≡◌, ◌⊎◌, ◌↔◌, ◌<◌, ℕ, Some, None, IsSome, map};
ghost use Rattle.std.specs.String.{string_bytes};
ghost use Rattle.eeprom.specs.StoreOf.{image_size};
ghost use Rattle.scql_model.specs.Database.{Database};
ghost use Rattle.scql_model.specs.Machine.{start};
ghost use Rattle.record_store.specs.Recovery.{KeepsStore};
ghost use Rattle.card_run.specs.Words.{form_in};
ghost use Rattle.card_run.specs.Beginning.{BeginsWith, FindsNoCard};
ghost use Rattle.card.specs.Opened.{IsOpenTo};
ghost use Rattle.program.specs.Ends.{AllFaults, EndsBy};
ghost use Rattle.card_run.specs.Forms.{RunsForm};
ghost use Rattle.card_run.specs.Run.{IsWithoutCard};
ghost use Rattle.card_run.specs.Selecting.{TermLinesSelectShown};
ghost use Rattle.card_run.specs.Showing.{LinesReadShown};
ghost use Rattle.person.specs.Showing.{ShowsSome};
ghost use Rattle.card_run.specs.Progress.{ShowsLoad};
ghost use Rattle.card_run.specs.Statements.{opened};

use crate::checking::run_check;
use crate::commands::answer_commands;
use crate::loading::run_load;
use crate::migration::run_migration;
use crate::opening::open_card;
use crate::statements::answer_statements;
use crate::words::{Form, form_of};
use eeprom::{Bench, Heap, Source};
use person::Person;
use program::Status;

/// Runs the card of the bench by the words behind the file's name. A person may be shown how far it has come, and be told of its lines.
pub fn run_card<S: Source, B: Bench, P: Person>(
    alloc: Heap,
    words: &[String],
    source: &mut S,
    bench: &mut B,
    person: &mut P,
) -> Status
    // The words are of no form.
    ensures usage { (result ≡ Status.Usage) ↔ (form_in (map string_bytes words.now) ≡ None) }
    // The EEPROM has too few octets for the cells that a new card is to have.
    ensures too_small { (result ≡ Status.TooSmall) ↔ ((n : ℕ) × (form_in (map string_bytes words.now) ≡ Some (Form.New n)) × ((B.chip bench.old).still.size < image_size n)) }
    // In both cases nothing is read, given or written.
    ensures untouched { (result ≡ Status.Usage) ⊎ (result ≡ Status.TooSmall) → (source.new ≡ source.old) × (bench.new ≡ bench.old) }
    // The words ask for the card that is there, and the image, where told, opens to no database;
    ensures not_a_card { result ≡ Status.NotACard → IsSome (B.chip bench.old).image → FindsNoCard (map string_bytes words.now) (B.chip bench.old) }
    // and then the run ends so, unless the EEPROM fails or there is no memory: nothing is read or given, and the image keeps what store it has.
    ensures no_card { FindsNoCard (map string_bytes words.now) (B.chip bench.old)
        → IsWithoutCard result × (source.new ≡ source.old) × KeepsStore (B.chip bench.old) (B.chip bench.new) }
    // Each fault has its cause, and without one the counts stay.
    ensures ends { EndsBy result
        (record { eeprom = B.faults bench.old; source = S.source_faults source.old; outlet = B.sink_faults bench.old })
        (record { eeprom = B.faults bench.new; source = S.source_faults source.new; outlet = B.sink_faults bench.new }) }
    // A run of a form tells how far it came, what it gave, what is left of the image and of the input, and what a power loss leaves of the image at each moment.
    ensures forms { (form : Form) → form_in (map string_bytes words.now) ≡ Some form
        → RunsForm B.chip B.faults B.octets_read form result source.old source.new (S.left source.old) (S.left source.new) bench.old bench.new
        (record { eeprom = B.faults bench.old; source = S.source_faults source.old; outlet = B.sink_faults bench.old })
        (record { eeprom = B.faults bench.new; source = S.source_faults source.new; outlet = B.sink_faults bench.new }) }
    // Each line that is a reading command is answered by what is shown to its channel, and so does what is shown go on.
    ensures shown { (db : Database) → BeginsWith (map string_bytes words.now) (B.chip bench.old) db → LinesReadShown (start db) }
    // Each line of `term` that is a SELECT on an open channel prints what is shown to the channel, and so does what is shown go on.
    ensures selected { (db : Database) → form_in (map string_bytes words.now) ≡ Some Form.Term → IsOpenTo (B.chip bench.old) db → TermLinesSelectShown (opened db) }
    // Nothing is shown to a person but in a load and in `term`:
    ensures unwatched { ((rows seed : ℕ) → form_in (map string_bytes words.now) ≡ Some (Form.Load rows seed) → ⊥) → (form_in (map string_bytes words.now) ≡ Some Form.Term → ⊥) → person.new ≡ person.old }
    // in a load how far it has come,
    ensures watched { (rows seed : ℕ) → form_in (map string_bytes words.now) ≡ Some (Form.Load rows seed)
        → ShowsLoad P.lost P.shown rows seed result (IsOpenTo (B.chip bench.old)) person.old person.new }
    // and in `term` some text.
    ensures told { form_in (map string_bytes words.now) ≡ Some Form.Term → ShowsSome P.lost P.shown person.old person.new }
{
    let Some(form) = form_of(words) else {
        return Status::Usage;
    };
    match open_card(alloc, form, bench) {
        Err(status) => status,
        Ok(card) => match form {
            Form::Check => run_check(&card, bench),
            Form::Migrate => run_migration(bench),
            Form::Load { rows, seed } => run_load(card, bench, person, rows, seed),
            Form::Term => answer_statements(card, source, bench, person),
            Form::New { .. } | Form::Apdu => answer_commands(card, source, bench),
        },
    }
}
