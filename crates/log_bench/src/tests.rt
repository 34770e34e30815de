// That ample memory suffices.
use crate::LogBench;
use eeprom::Eeprom;
use std::alloc::AllocError;

#[test]
fn writes_are_logged_in_order(rt: HostRuntime) -> Result<(), AllocError> {
    let image = Vec::from_slice(rt.alloc(), &[10, 11, 12, 13])?;
    let mut bench = LogBench::new(rt.alloc(), image, 1, 2)?;
    assert_eq!(rt; bench.size(), 4);
    assert_eq!(rt; bench.write(1, &[1, 2]), Ok(()));
    assert_eq!(rt; bench.write(2, &[3, 4]), Ok(()));
    assert_eq!(rt; bench.image(), [10, 1, 3, 4].as_slice());
    assert_eq!(rt; bench.writes(), 2);
    assert_eq!(rt; bench.write_at(0), Some((1, [1, 2].as_slice())));
    assert_eq!(rt; bench.write_at(1), Some((2, [3, 4].as_slice())));
    assert_eq!(rt; bench.write_at(2), None);
    bench.begin();
    assert_eq!(rt; bench.writes(), 0);
    let mut into = [0; 2];
    assert_eq!(rt; bench.read(1, &mut into), Ok(()));
    assert_eq!(rt; into, [1, 3]);
    Ok(())
}
