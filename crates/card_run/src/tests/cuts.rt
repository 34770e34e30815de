// Power is lost within each write of the worked scripts, and of each opening after that: the image opens to what the script made of it
// by as many commits as were heard, or by those of one line more.
use super::power_loss::{FILLS, look_at};
use super::scripts::{STOCK, Script, TRANSACTION, VERIFICATION};
use super::{no_faults, run_over};
use eeprom::MemBench;
use std::alloc::{AllocError, Global};
use std::test::Fail;

// What the card of an image tells that such a loss leaves, where it is what may be there.
fn told_of_cut(
    alloc: Global,
    script: &Script,
    bench: &MemBench,
    write: usize,
    fill: u8,
) -> Result<Option<Vec<u8>>, AllocError> {
    let Some(image) = bench.image_within(alloc, write, fill)? else {
        return Ok(None);
    };
    let Some(given) = bench.given_at(write) else {
        return Ok(None);
    };
    let heard = script.heard(given);
    let least = script.commits_to(heard);
    let most = script.commits_to(heard.saturating_add(1));
    let told = look_at(alloc, script.form, &image, script.probe)?;
    Ok(told.filter(|told| script.is_told(told, least, most)))
}

// Each state is left by some cut, and no other: so of a verification also the one with a try less.
#[test]
fn cut_in_worked_scripts(rt: HostRuntime) -> Result<(), Fail> {
    let alloc = rt.alloc();
    for (number, script) in [VERIFICATION, TRANSACTION, STOCK].iter().enumerate() {
        let Some(image) = script.image(alloc)? else {
            panic!(rt; "{number}");
        };
        let input = script.input(alloc)?;
        let (status, bench) = run_over(alloc, &[script.form], &input, &image, no_faults(alloc))?;
        assert!(rt; status == script.status, "{number}");
        let text = script.text_of(alloc, script.len())?;
        assert_eq!(rt; bench.given(), text.as_bytes(), "{number}");
        let mut left = Vec::new(alloc);
        for write in 0..bench.writes() {
            for fill in FILLS {
                let Some(told) = told_of_cut(alloc, script, &bench, write, fill)? else {
                    panic!(rt; "{number}: {write} {fill}");
                };
                left.push(told)?;
            }
        }
        for state in script.states {
            assert!(rt;
                left.iter().any(|told| told.as_slice() == state.as_bytes()),
                "{number}: {state}"
            );
        }
    }
    Ok(())
}
