// Where a cursor's rows come from.
ghost use Rattle.std.specs.Prelude.{◌≡◌, ℕ, List, Option, if◌then◌else◌, IfOk, IfSome, option_map};
ghost use Rattle.eeprom.specs.Chip.{Chip, Becomes};
ghost use Rattle.scql_base.specs.Row.{row_size};
ghost use Rattle.scql_base.specs.declared.cursor.Place.{Place};
ghost use Rattle.scql_model.specs.Moves as moves;
ghost use Rattle.scql_model.specs.Objects.{StampedRow};
ghost use Rattle.cursor.specs.Costs.{Cost, RisesBetween, cost_behind, cost_of, size_handed};
ghost use Rattle.cursor.specs.Feed.{Stays};
ghost use Rattle.cursor.specs.Moved.{handed, row_handed};

use eeprom::EepromFault;
use scql_base::Row;

/// Rows in rising order of their stamps, which are read one at a time.
pub trait RowFeed {
    /// These are the rows.
    ghost tells: { Self → List StampedRow → Type 0 };

    /// Stamps with what reading the rows there may cost, where told.
    ghost costs: { Self → Option (List Cost) };

    /// What else no call changes, such as which references it holds.
    ghost Kept: { Type 0 };

    ghost kept: { Self → Self.Kept };

    /// What the EEPROM of the rows has become.
    ghost chip: { Self → Chip };

    /// How many octets were asked for by all reads, where told.
    ghost octets_read: { Self → Option ℕ };

    /// How often a call failed.
    ghost faults: { Self → ℕ };

    /// The least stamp above this one, if there is one.
    fn next_after(&mut self, stamp: u32) -> Result<Option<u32>, EepromFault>
        ensures next { IfOk result (λ next. (rows : List StampedRow) → tells self.old rows → next ≡ option_map (λ row. row.stamp) (moves.row_behind (Place.At stamp) rows)) }
        ensures read { IfOk result (λ next. IfSome (costs self.old) (λ costs. Becomes (RisesBetween 0 (cost_behind stamp next costs)) (octets_read self.old) (octets_read self.new))) }
        ensures stays { Stays tells costs kept chip faults self.old self.new result };

    /// Hands out the row of a stamp, and answers whether there is one. Where there is one, at least its octets are read.
    fn row_at(&mut self, stamp: u32, out: &mut Row) -> Result<bool, EepromFault>
        ensures there { IfOk result (λ there. (rows : List StampedRow) → tells self.old rows → handed there out.new ≡ option_map (λ row. row.values) (moves.row_at stamp rows)) }
        ensures read { IfOk result (λ there. IfSome (costs self.old)
            (λ costs. Becomes (RisesBetween (if there then row_size out.new else 0) (cost_of stamp costs)) (octets_read self.old) (octets_read self.new))) }
        ensures stays { Stays tells costs kept chip faults self.old self.new result };

    /// Hands out the row of the least stamp above this one, and answers its stamp, if there is one. The rows up to it are read once.
    fn next_row(&mut self, stamp: u32, out: &mut Row) -> Result<Option<u32>, EepromFault>
        ensures next { IfOk result (λ next. (rows : List StampedRow) → tells self.old rows → row_handed next out.new ≡ moves.row_behind (Place.At stamp) rows) }
        ensures read { IfOk result (λ next. IfSome (costs self.old)
            (λ costs. Becomes (RisesBetween (size_handed next out.new) (cost_behind stamp next costs)) (octets_read self.old) (octets_read self.new))) }
        ensures stays { Stays tells costs kept chip faults self.old self.new result };
}
