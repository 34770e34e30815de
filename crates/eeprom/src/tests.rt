// What no clause says: that ample memory suffices, and printed texts; and each call of the fakes once.
ghost use Rattle.std.specs.Prelude.{◌≡◌, length, IfOk};

use crate::{
    Bench, CutBench, Eeprom, EepromFault, FaultPlan, MemBench, MemSource, Outlet, SinkFault,
    Source, SourceFault, SteadyBench, SteadySource,
};
use std::alloc::{AllocError, Global};

fn image(alloc: Global) -> Result<Vec<u8>, AllocError>
    ensures { IfOk result (λ image. length image.items ≡ 6) }
{
    Vec::from_slice(alloc, &[10, 11, 12, 13, 14, 15])
}

// A bench whose second calls fail.
fn bench(alloc: Global) -> Result<MemBench, AllocError>
    ensures { IfOk result (λ bench. (⟦<MemBench as Eeprom>⟧.chip bench).still.size ≡ 6) }
{
    let plan = FaultPlan {
        reads: vec![in alloc; 1]?,
        writes: vec![in alloc; 1]?,
        gives: vec![in alloc; 1]?,
        fill: 9,
    };
    MemBench::new(alloc, image(alloc)?, plan)
}

#[test]
fn reads_fail_as_planned(rt: HostRuntime) -> Result<(), AllocError> {
    let mut bench = bench(rt.alloc())?;
    let mut into = [0; 2];
    assert_eq!(rt; bench.read(4, &mut into), Ok(()));
    assert_eq!(rt; into, [14, 15]);
    assert_eq!(rt; bench.read(0, &mut into), Err(EepromFault));
    assert_eq!(rt; bench.octets_read(), 4);
    Ok(())
}

#[test]
fn writes_fail_as_planned(rt: HostRuntime) -> Result<(), AllocError> {
    let mut bench = bench(rt.alloc())?;
    assert_eq!(rt; bench.write(0, &[1, 2]), Ok(()));
    assert_eq!(rt; bench.write(3, &[3, 4]), Err(EepromFault));
    assert_eq!(rt; bench.image(), [1, 2, 12, 9, 9, 15].as_slice());
    let within = bench.image_within(rt.alloc(), 0, 5)?.ok_or(AllocError)?;
    assert_eq!(rt; within.as_slice(), [5, 5, 12, 13, 14, 15].as_slice());
    assert_eq!(rt; bench.ran_out(), false);
    Ok(())
}

#[test]
fn gives_fail_as_planned(rt: HostRuntime) -> Result<(), AllocError> {
    let mut bench = bench(rt.alloc())?;
    assert_eq!(rt; bench.give(&[70, 71, 72]), Ok(()));
    assert_eq!(rt; bench.write(3, &[3, 4]), Ok(()));
    assert_eq!(rt; bench.give(&[80, 81, 82]), Err(SinkFault));
    assert_eq!(rt; bench.given(), [70, 71, 72, 80].as_slice());
    assert_eq!(rt; (bench.writes(), bench.given_at(0)), (1, Some(3)));
    Ok(())
}

#[test]
fn steady_benches_go_on_without_room(rt: HostRuntime) -> Result<(), AllocError> {
    let mut bench = SteadyBench::new(rt.alloc(), image(rt.alloc())?, 3, 2)?;
    let mut into = [0; 2];
    assert_eq!(rt; bench.write(3, &[1, 2, 3]), Ok(()));
    assert_eq!(rt; bench.write(0, &[4, 5]), Ok(()));
    assert_eq!(rt; bench.read(2, &mut into), Ok(()));
    assert_eq!(rt; into, [12, 1]);
    assert_eq!(rt; bench.image(), [4, 5, 12, 1, 2, 3].as_slice());
    assert_eq!(rt; bench.give(&[70, 71]), Ok(()));
    assert_eq!(rt; bench.given(), [70, 71].as_slice());
    assert_eq!(rt; bench.give(&[80]), Ok(()));
    Ok(())
}

#[test]
fn cut_benches_fill_the_write_behind_the_last(rt: HostRuntime) -> Result<(), AllocError> {
    let inner = SteadyBench::new(rt.alloc(), image(rt.alloc())?, 6, 0)?;
    let mut bench = CutBench::new(inner, 1, 9);
    let mut into = [0; 2];
    assert_eq!(rt; bench.write(0, &[1, 2]), Ok(()));
    assert_eq!(rt; bench.read(1, &mut into), Ok(()));
    assert_eq!(rt; into, [2, 12]);
    assert_eq!(rt; bench.write(2, &[3, 4, 5]), Err(EepromFault));
    assert_eq!(rt; bench.read(0, &mut into), Err(EepromFault));
    assert_eq!(rt; bench.write(0, &[6]), Err(EepromFault));
    assert_eq!(rt; bench.inner().image(), [1, 2, 9, 9, 9, 15].as_slice());
    Ok(())
}

#[test]
fn sources_give_pieces(rt: HostRuntime) -> Result<(), AllocError> {
    let alloc = rt.alloc();
    let mut into = [0; 8];
    let mut source = MemSource::new(image(alloc)?, 4, vec![in alloc; 1]?);
    assert_eq!(rt; source.read(&mut into), Ok(4));
    assert_eq!(rt; source.read(&mut into), Err(SourceFault));
    assert_eq!(rt; source.read(&mut into), Ok(2));
    assert_eq!(rt; &into[..2], [14, 15].as_slice());
    assert_eq!(rt; source.read(&mut into), Ok(0));

    let mut steady = SteadySource::new(image(alloc)?, 4);
    assert_eq!(rt; steady.read(&mut into), Ok(4));
    assert_eq!(rt; &into[..4], [10, 11, 12, 13].as_slice());
    Ok(())
}

#[test]
fn faults_are_printed(rt: HostRuntime) -> Result<(), AllocError> {
    let alloc = rt.alloc();
    assert_eq!(rt;
        format!(in alloc; "{}", EepromFault)?.as_str(),
        "eeprom fault"
    );
    assert_eq!(rt; format!(in alloc; "{}", SinkFault)?.as_str(), "write fault");
    assert_eq!(rt;
        format!(in alloc; "{}", SourceFault)?.as_str(),
        "read fault"
    );
    Ok(())
}
