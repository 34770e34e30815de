// Laws on what objects contain, and on views over views.
ghost use Rattle.std.specs.Prelude.{IsSome, IsTrue, List, None, Some, length, map, option_map, ℕ, ◌+◌, ◌<◌, ◌≡◌, ◌≤◌};
ghost use Rattle.std.specs.List.{list_all};
ghost use Rattle.scql_base.specs.declared.condition.Condition.{Condition};
ghost use Rattle.scql_base.specs.declared.records.Object.{Object};
ghost use Rattle.scql_base.specs.declared.records.ObjectKind.TheVariants.{Dictionary, Table, View};
ghost use Rattle.scql_base.specs.declared.words.Subject.{Subject};
ghost use Rattle.scql_model.specs.Contents.{contents_of, narrowed, of_table};
ghost use Rattle.scql_model.specs.Database.{Database, object_stamped, rows_of};
ghost use Rattle.scql_model.specs.Dictionaries.{rows_told};
ghost use Rattle.scql_model.specs.Machine.{base};
ghost use Rattle.scql_model.specs.Matching.{Columns};
ghost use Rattle.scql_model.specs.Objects.{deepest, depth_of, dictionary_columns};
ghost use Rattle.scql_model.specs.Resolving.{IsSeenThrough, Resolved, names_its_base, resolved_of};

/// A table contains its rows, a view those rows of its base that meet its conditions, cut to its columns, and a dictionary
/// what it tells of.
pub fn contents_are_those_of_the_kind()
    ensures table { (db : Database) (o : Object) (columns : Columns)
        → object_stamped db.objects o.stamp ≡ Some o → o.kind ≡ Table columns
        → contents_of db o.stamp ≡ record { columns = columns; rows = map of_table (rows_of o.stamp db.rows) } }
    ensures view { (db : Database) (o : Object) (base : ℕ) (columns : Columns) (conditions : List Condition)
        → object_stamped db.objects o.stamp ≡ Some o → o.kind ≡ View base columns conditions → IsSome (depth_of db.objects o.stamp)
        → contents_of db o.stamp ≡ record { columns = columns; rows = narrowed columns conditions (contents_of db base) } }
    ensures dictionary { (db : Database) (o : Object) (subject : Subject)
        → object_stamped db.objects o.stamp ≡ Some o → o.kind ≡ Dictionary subject
        → contents_of db o.stamp ≡ record { columns = dictionary_columns subject; rows = rows_told db o.owner subject } }
{}

/// A table stands at depth 0 and a view one deeper than its base, and no view stands over one that is the deepest, or over
/// a dictionary.
pub fn depth_is_one_more_than_the_base_has()
    ensures table { (objects : List Object) (o : Object) (columns : Columns)
        → object_stamped objects o.stamp ≡ Some o → o.kind ≡ Table columns → depth_of objects o.stamp ≡ Some 0 }
    ensures view { (objects : List Object) (o : Object) (base depth : ℕ) (columns : Columns) (conditions : List Condition)
        → object_stamped objects o.stamp ≡ Some o → o.kind ≡ View base columns conditions
        → depth_of objects base ≡ Some depth → depth < deepest → depth_of objects o.stamp ≡ Some (depth + 1) }
    ensures too_deep { (objects : List Object) (o : Object) (base : ℕ) (columns : Columns) (conditions : List Condition)
        → object_stamped objects o.stamp ≡ Some o → o.kind ≡ View base columns conditions
        → depth_of objects base ≡ Some deepest → depth_of objects o.stamp ≡ None }
    ensures dictionary { (objects : List Object) (o : Object) (subject : Subject)
        → object_stamped objects o.stamp ≡ Some o → o.kind ≡ Dictionary subject → depth_of objects o.stamp ≡ None }
    ensures most { (objects : List Object) (stamp depth : ℕ) → depth_of objects stamp ≡ Some depth → depth ≤ deepest }
{}

/// A table or a view is seen through to the table under it: whatever columns and conditions are asked of it, its rows are those
/// of the table that meet them and the conditions of each view between, cut once. It has as many filters as its depth is.
pub fn views_are_seen_through()
    ensures rows { (db : Database) (stamp : ℕ) (r : Resolved)
        → IsTrue (list_all (names_its_base db.objects) db.objects) → resolved_of db.objects stamp ≡ Some r
        → IsSeenThrough db (contents_of db stamp) r }
    ensures filters { (objects : List Object) (stamp : ℕ)
        → option_map (λ (r : Resolved). length r.filters) (resolved_of objects stamp) ≡ depth_of objects stamp }
{}
