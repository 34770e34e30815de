// A feed can stand over any EEPROM: the moves on its one row, and what a caller then knows of the EEPROM.
ghost use Rattle.std.specs.Prelude.{◌≡◌, ◌≤◌, ◌∷◌, [], IfOk};
ghost use Rattle.eeprom.specs.Chip.{Becomes, RisesAtMost};
ghost use Rattle.eeprom.specs.Fault.{each_error};
ghost use Rattle.eeprom.specs.Frame.{Reads};

use crate::{RowFeed, fetch, fetch_step, first, step};
use eeprom::{Eeprom, EepromFault, FaultPlan, MemBench};
use scql_base::{Place, Row, StatusWord};
use std::test::Fail;

/// The row of stamp 7: one value, which is the first octet of an EEPROM.
#[derive(Drop)]
struct Single<'a, B: Eeprom> {
    bench: &'a mut B,
    ghost room: { 2 ≤ (B.chip bench.now).still.size },
}

impl<'a, B: Eeprom> RowFeed for Single<'a, B> {
    ghost use Rattle.std.specs.Prelude.{◌≡◌, ◌≤◌, ◌∷◌, [], ℕ, Some, option_map, slice_range};

    ghost tells = { λ f rows. option_map (λ image. record { stamp = 7; values = slice_range image 0 1 ∷ [] } ∷ []) (B.chip f.bench.now).image ≡ Some rows };

    ghost costs = { λ _. Some (record { stamp = 7; octets = 2 } ∷ []) };

    ghost Kept = { ℕ };

    ghost kept = { λ f. f.bench.ghost_name };

    ghost chip = { λ f. B.chip f.bench.now };

    ghost octets_read = { λ f. B.octets_read f.bench.now };

    ghost faults = { λ f. B.faults f.bench.now };

    fn next_after(&mut self, stamp: u32) -> Result<Option<u32>, EepromFault> {
        Ok(if stamp < 7 { Some(7) } else { None })
    }

    fn row_at(&mut self, stamp: u32, out: &mut Row) -> Result<bool, EepromFault> {
        if stamp != 7 {
            return Ok(false);
        }
        let mut octets = [0; 2];
        self.bench.read(0, &mut octets)?;
        *out = row_of(octets[0]);
        Ok(true)
    }

    fn next_row(&mut self, stamp: u32, out: &mut Row) -> Result<Option<u32>, EepromFault> {
        if stamp >= 7 {
            return Ok(None);
        }
        let mut octets = [0; 2];
        self.bench.read(0, &mut octets)?;
        *out = row_of(octets[0]);
        Ok(Some(7))
    }
}

fn row_of(octet: u8) -> Row
    ensures { result ≡ (octet ∷ []) ∷ [] }
{
    let mut row = Row::new();
    let pushed = row.push(&[octet]).is_ok();
    prove!(pushed);
    row
}

// What a caller knows of an EEPROM after a move on its row.
fn opens<B: Eeprom>(bench: &mut B, place: &mut Place) -> Result<StatusWord, EepromFault>
    requires { 2 ≤ (B.chip bench.old).still.size }
    ensures frame { Reads each_error B.chip B.faults bench.old bench.new result }
    ensures read { IfOk result (λ _. Becomes (RisesAtMost 2) (B.octets_read bench.old) (B.octets_read bench.new)) }
{
    let mut feed = Single { bench };
    first(&mut feed, place)
}

#[test]
fn one_row_is_fetched(rt: HostRuntime) -> Result<(), Fail> {
    let alloc = rt.alloc();
    let plan = FaultPlan {
        reads: vec![in alloc; 3]?,
        writes: Vec::new(alloc),
        gives: Vec::new(alloc),
        fill: 0,
    };
    let mut bench = MemBench::new(alloc, vec![in alloc; 0x41u8; 2]?, plan)?;
    let mut place = Place::NotOpen;
    assert_eq!(rt; opens(&mut bench, &mut place), Ok(StatusWord::DONE));
    let mut feed = Single { bench: &mut bench };
    let mut row = Row::new();
    assert_eq!(rt; place, Place::At { stamp: 7 });
    assert_eq!(rt;
        fetch(&mut feed, &place, 1, &mut row),
        Ok(StatusWord { word: 0x6C02 })
    );
    assert_eq!(rt; fetch(&mut feed, &place, 2, &mut row), Ok(StatusWord::DONE));
    assert_eq!(rt; row.octets(), b"\x01A".as_slice());
    assert_eq!(rt; step(&mut feed, &mut place), Ok(StatusWord::END_REACHED));
    assert_eq!(rt;
        fetch_step(&mut feed, &mut place, 2, &mut row),
        Ok(StatusWord::END_REACHED)
    );
    place = Place::At { stamp: 6 };
    assert_eq!(rt;
        fetch(&mut feed, &place, 2, &mut row),
        Ok(StatusWord::RECORD_NOT_FOUND)
    );
    assert_eq!(rt;
        fetch_step(&mut feed, &mut place, 256, &mut row),
        Ok(StatusWord::DONE)
    );
    assert_eq!(rt; fetch(&mut feed, &place, 2, &mut row), Err(EepromFault));
    Ok(())
}
