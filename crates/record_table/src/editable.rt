// Records of which the edits of a database speak.
use catalog_codec::Record;
use scql_base::{Grant, Object, RowRecord, User};

/// A record that edits of a database add, change or remove.
pub trait Editable: Record {
    ghost use Rattle.scql_model.specs.Records.{AnyRecord};
    ghost use Rattle.record_table.specs.Editable.{IsEditable};

    /// The record among those of all kinds.
    ghost any: { Self → AnyRecord };

    /// What the kind owes towards a database.
    ghost edits: { IsEditable Self.kind any };
}

impl Editable for User {
    ghost use Rattle.scql_model.specs.Records.{of_user};
    ghost use Rattle.record_table.specs.EditableLaws.{IsEditable-user};

    ghost any = { of_user };

    ghost edits = { IsEditable-user };
}

impl Editable for Object {
    ghost use Rattle.scql_model.specs.Records.{of_object};
    ghost use Rattle.record_table.specs.EditableLaws.{IsEditable-object};

    ghost any = { of_object };

    ghost edits = { IsEditable-object };
}

impl Editable for Grant {
    ghost use Rattle.scql_model.specs.Records.{of_grant};
    ghost use Rattle.record_table.specs.EditableLaws.{IsEditable-grant};

    ghost any = { of_grant };

    ghost edits = { IsEditable-grant };
}

impl Editable for RowRecord {
    ghost use Rattle.scql_model.specs.Records.{of_row};
    ghost use Rattle.record_table.specs.EditableLaws.{IsEditable-row};

    ghost any = { of_row };

    ghost edits = { IsEditable-row };
}
