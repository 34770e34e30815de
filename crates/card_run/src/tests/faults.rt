// Each read, write, give and call of the source fails in turn in the worked scripts: how the run ends, what it prints, and to what its
// image opens.
use super::power_loss::left_in;
use super::scripts::{STOCK, Script, TRANSACTION, VERIFICATION};
use super::{Failing, no_faults, words_of};
use crate::run::run_card;
use eeprom::{MemBench, MemSource};
use person::Nobody;
use program::Status;
use std::alloc::{AllocError, Global};
use std::test::Fail;

// The status of a script in which a device fails at its call of that number, and the bench after it. The input comes in pieces of 30 octets.
fn script_failing(
    alloc: Global,
    script: &Script,
    image: &[u8],
    failing: Failing,
    number: usize,
) -> Result<(Status, MemBench), AllocError> {
    let words = words_of(alloc, &[script.form])?;
    let mut plan = no_faults(alloc);
    plan.fill = 0x5A;
    let mut fails = Vec::new(alloc);
    match failing {
        Failing::Read => plan.reads.push(number)?,
        Failing::Write => plan.writes.push(number)?,
        Failing::Give => plan.gives.push(number)?,
        Failing::Source => fails.push(number)?,
    }
    let input = script.input(alloc)?;
    let mut source = MemSource::new(Vec::from_slice(alloc, input.as_bytes())?, 30, fails);
    let mut bench = MemBench::new(alloc, Vec::from_slice(alloc, image)?, plan)?;
    let status = run_card(alloc, &words, &mut source, &mut bench, &mut Nobody);
    Ok((status, bench))
}

// How many lines were answered whole in such an output, where it is what a run prints in which that device failed.
fn answered(
    alloc: Global,
    script: &Script,
    failing: Failing,
    given: &[u8],
) -> Result<Option<usize>, AllocError> {
    let text = script.text_of(alloc, script.len())?;
    let is_start = text.as_bytes().starts_with(given);
    let heard = script.heard(given.len());
    let is_whole = script.text_of(alloc, heard)?.as_bytes() == given;
    let lines = match failing {
        // The outlet takes a part of a text. Of the source each line was answered that it gave whole.
        Failing::Give if is_start && given.len() < text.len() => Some(heard),
        Failing::Source if is_start && is_whole => Some(heard),
        Failing::Give | Failing::Source => None,
        // At opening nothing is printed; in a line of `term` whole rows are.
        _ if given.is_empty() => Some(0),
        _ if script.form == "term" => {
            let ends = given.last().is_some_and(|octet| *octet == b'\n');
            if is_start && ends && heard < script.len() {
                Some(heard)
            } else {
                None
            }
        }
        // In a line of `apdu` the fault is printed.
        _ => {
            let lines = heard.saturating_sub(1);
            let mut faulty = script.text_of(alloc, lines)?;
            faulty.push_str("6581\n")?;
            if faulty.as_bytes() == given {
                Some(lines)
            } else {
                None
            }
        }
    };
    Ok(lines)
}

// Whether output and image are those of a script in which that device failed. Behind a fault of the EEPROM the line's changes may be
// there or not; of the line that the outlet cut short all are; and behind a fault of the source those of the lines before.
fn is_right(
    alloc: Global,
    script: &Script,
    failing: Failing,
    bench: &MemBench,
) -> Result<bool, AllocError> {
    let Some(lines) = answered(alloc, script, failing, bench.given())? else {
        return Ok(false);
    };
    let before = script.commits_to(lines);
    let after = script.commits_to(lines.saturating_add(1));
    let (least, most) = match failing {
        Failing::Read | Failing::Write => (before, after),
        Failing::Give => (after, after),
        Failing::Source => (before, before),
    };
    let (left, _) = left_in(alloc, script.form, bench.image(), script.probe)?;
    Ok(left.is_some_and(|told| script.is_told(&told, least, most)))
}

#[test]
fn failing_worked_scripts(rt: HostRuntime) -> Result<(), Fail> {
    let alloc = rt.alloc();
    for (script, lines) in [(VERIFICATION, 2), (TRANSACTION, 4), (STOCK, 15)] {
        let Some(image) = script.image(alloc)? else {
            panic!(rt; "{lines}");
        };
        for (failing, status) in [
            (Failing::Read, Status::Eeprom),
            (Failing::Write, Status::Eeprom),
            (Failing::Give, Status::WriteFault),
            (Failing::Source, Status::ReadFault),
        ] {
            let mut faults = 0usize;
            for number in 0..1000 {
                let (found, bench) = script_failing(alloc, &script, &image, failing, number)?;
                if found == script.status {
                    break;
                }
                assert!(rt; found == status, "{lines} {failing:?} {number}");
                assert!(rt;
                    is_right(alloc, &script, failing, &bench)?,
                    "{lines} {failing:?} {number}"
                );
                faults = faults.saturating_add(1);
            }
            assert!(rt; lines <= faults && faults < 1000, "{lines} {failing:?}");
        }
    }
    Ok(())
}
