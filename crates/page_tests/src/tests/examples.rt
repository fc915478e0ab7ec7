//! The examples in the doc comments of `page_rules`, `sheets` and `date_parts`, each under the name of its item.
//! The lines are the same in both places.

use date_parts::{DatePlaces, joined_sheet};
use page_rules::{EntryDay, convert_text, pick, records_in_order, register_days, write};
use register_records::{Form, Setup};
use std::test::Fail;

/// `convert_text`
#[test]
fn a_text_becomes_a_table(rt: HostRuntime) -> Result<(), Fail> {
    let text = b"id,calendar,date\na,gregorian,1752-09-14\n";
    let mut room = [0; 100];
    let converted = convert_text(rt.alloc(), text, &[2], b',', false, &mut room)?;
    let table = &room[..usize::min(converted.length, 100)];
    assert!(rt; table.ends_with(b",639797,Thursday,1752-09-03,\n"));
    Ok(())
}

/// `pick`
#[test]
fn fields_are_picked(rt: HostRuntime) -> Result<(), Fail> {
    let sheet = b"Name;Date\n\"Shaw; Anna\";1699-11-30\nLund\n";
    let picked = pick(rt.alloc(), sheet, b';', &[1, 0], 10)?;
    assert!(rt; picked.bytes.as_slice() == b"DateName1699-11-30Shaw; AnnaLund".as_slice());
    assert!(rt; picked.lengths.as_slice() == [4, 4, 10, 10, 0, 4].as_slice());
    assert!(rt; picked.records == 3 && picked.widest == 2);
    Ok(())
}

/// `write`
#[test]
fn fields_are_written(rt: HostRuntime) -> Result<(), Fail> {
    let text = write(rt.alloc(), b"a,bc\"d", &[3, 0, 3], 2, b',')?;
    assert!(rt; text.as_slice() == b"\"a,b\",\n\"c\"\"d\"\n".as_slice());
    Ok(())
}

/// `register_days`
#[test]
fn a_register_has_its_days(rt: HostRuntime) -> Result<(), Fail> {
    let setup = Setup::new(&[], 1, b',', 1, Form::Plain)?;
    let text = b"id,calendar,date\na,iso,0001-W01-1\n";
    let mut days = Vec::new(rt.alloc());
    register_days(rt.alloc(), text, &setup, &mut days)?;
    let (day, calendar) = (3_652_425, 1);
    let found = [EntryDay { day, calendar }];
    assert!(rt; days.as_slice() == found.as_slice());
    Ok(())
}

/// `records_in_order`
#[test]
fn records_come_in_another_order(rt: HostRuntime) -> Result<(), Fail> {
    let text = b"Name,Date\r\n\"Shaw, Anna\",\"1699\"\nLund";
    let made = records_in_order(rt.alloc(), text, b',', &[0, 2, 1])?;
    assert!(rt; made.as_slice() == b"Name,Date\nLund\n\"Shaw, Anna\",1699\n".as_slice());
    Ok(())
}

/// `joined_sheet`
#[test]
fn three_columns_are_one(rt: HostRuntime) -> Result<(), Fail> {
    let sheet = b"Tag,Monat,Jahr\n12,5,1806\n12,Mai,1806\n,Mai,1806\n";
    let places = DatePlaces {
        year: 2,
        month: 1,
        day: 0,
    };
    let made = joined_sheet(rt.alloc(), Vec::new(rt.alloc()), sheet, b',', 0, places)?;
    let text =
        b"Tag,Monat,Jahr,Jahr-Monat-Tag\n12,5,1806,1806-5-12\n12,Mai,1806,12 Mai 1806\n,Mai,1806,Mai 1806\n";
    assert!(rt; made.as_slice() == text.as_slice());
    Ok(())
}
