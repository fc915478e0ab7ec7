//! The examples in the doc comments of `register_records` and `date_texts`, each under the name of its item. The lines
//! are the same in both places.

use date_texts::{Calendar, Refusal, Target, cell, day_of_date, read_date, write_date};
use day_numbers::Day;
use register_records::{Entry, EntryReader, Form, PlainOutput, Setup, SetupFault, convert_source};
use std::test::Fail;

/// `Setup::new`
#[test]
fn a_setup_has_its_targets(rt: HostRuntime) -> Result<(), Fail> {
    let targets = [Target::Date(Calendar::Gregorian), Target::Tzolkin];
    let setup = Setup::new(&targets, 16, b',', 1, Form::Plain)?;
    assert!(rt; setup.targets() == targets.as_slice());
    let fault = Setup::new(&targets, 0, b',', 1, Form::Plain).err();
    assert!(rt; fault == Some(SetupFault::RingSize));
    Ok(())
}

/// `EntryReader`
#[test]
fn a_text_has_entries(rt: HostRuntime) -> Result<(), Fail> {
    let setup = Setup::new(&[], 16, b',', 1, Form::Plain)?;
    let text = b"id,calendar,date\na,gregorian,1945-11-12\n";
    let mut entries = EntryReader::open(rt.alloc(), text.as_slice(), &setup)?;
    let mut entry = Entry::blank();
    assert!(rt; entries.read_next(&mut entry)?);
    assert_eq!(rt; entry.number(), 1);
    assert!(rt; !entries.read_next(&mut entry)?);
    Ok(())
}

/// `convert_source`
#[test]
fn a_text_becomes_a_table(rt: HostRuntime) -> Result<(), Fail> {
    let setup = Setup::new(&[Target::Date(Calendar::Julian)], 16, b',', 1, Form::Plain)?;
    let text = b"id,calendar,date\na,gregorian,1752-09-14\n";
    let mut output = PlainOutput::new(Vec::new(rt.alloc()), 1);
    let end = convert_source(rt.alloc(), text.as_slice(), &mut output, &setup);
    let table = output.into_inner();
    assert!(rt; end.is_whole() && table.ends_with(b",639797,Thursday,1752-09-03,\n"));
    Ok(())
}

/// `read_date`
#[test]
fn a_text_says_a_date(rt: HostRuntime) -> Result<(), Fail> {
    let date = read_date(Calendar::Julian, " 1582-10-5 ")?;
    assert_eq!(rt; day_of_date(&date)?.number(), 577_736);
    let slashed = read_date(Calendar::Julian, "1582/10/05");
    assert_eq!(rt; slashed, Err(Refusal::DateText));
    Ok(())
}

/// `write_date`
#[test]
fn a_date_has_a_text(rt: HostRuntime) -> Result<(), Fail> {
    let ides_of_march = read_date(Calendar::Julian, "-44-3-15")?;
    assert_eq!(rt; write_date(&ides_of_march).as_str(), "-0044-03-15");
    let week_date = read_date(Calendar::Iso, "2004-w53-6")?;
    assert_eq!(rt; write_date(&week_date).as_str(), "2004-W53-6");
    Ok(())
}

/// `cell`
#[test]
fn a_day_has_cells(rt: HostRuntime) -> Result<(), Fail> {
    // 12 November 1945.
    let day = Day::new(710_347).ok_or("out of range")?;
    let hebrew = Target::Date(Calendar::Hebrew);
    assert_eq!(rt; cell(hebrew, day).as_str(), "5706-09-07");
    assert_eq!(rt; cell(Target::Haab, day).as_str(), "7 Zac");
    Ok(())
}
