// The names that a copy is asked for by.
ghost use Rattle.std.specs.Prelude.{◌≡◌, map, None, is_some};
ghost use Rattle.std.specs.String.{string_bytes};
ghost use Rattle.copy_run.specs.Copies as model;

use scql_base::Name;

/// Who is presented on the source, what is copied, who is presented on the destination, and the table into which rows are put.
#[derive(Drop)]
pub(crate) struct CopyNames {
    pub(crate) source_user: Name,
    pub(crate) object: Name,
    pub(crate) dest_user: Name,
    pub(crate) table: Name,
}

/// The names that four words are.
pub(crate) fn names_of(words: &[String]) -> Option<CopyNames>
    ensures { result ≡ model.names_in (map string_bytes words.now) }
{
    let [source_user, object, dest_user, table] = words else {
        return None;
    };
    Some(CopyNames {
        source_user: Name::read(source_user.as_bytes())?,
        object: Name::read(object.as_bytes())?,
        dest_user: Name::read(dest_user.as_bytes())?,
        table: Name::read(table.as_bytes())?,
    })
}

/// Whether the words are four names, as a run wants them.
pub fn are_names(words: &[String]) -> bool
    ensures { result ≡ is_some (model.names_in (map string_bytes words.now)) }
{
    names_of(words).is_some()
}
