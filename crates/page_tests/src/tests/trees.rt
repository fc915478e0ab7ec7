//! A small tree of each version, and the dates in it, found by hand.

use family_trees::{TreeDate, dates_of, is_tree, own_tree_sheet};
use std::alloc::{AllocError, Global};
use std::test::Fail;

/// A tree, and a line for each date: number, name, partner, event, part, type, place, calendar and date, with bars
/// between them.
struct Case {
    tree: &'static str,
    dates: &'static str,
}

static CASES: [Case; 6] = [
    Case {
        tree: "\
0 HEAD
1 SOUR a program
1 DATE 3 MAR 2020
2 TIME 12:00
0 @F1@ FAM
1 HUSB @I1@
1 WIFE @I2@
1 MARR
2 PLAC Mainz
2 DATE @#DFRENCH R@ 15 VENT 6
1 CHIL @I3@
0 @I1@ INDI
1 NAME Karl /Vogel/
2 GIVN Karl
1 NAME Carl /Vogel/
1 BIRT
2 DATE @#DJULIAN@ 10 FEB 1699
2 PLAC Riga
2 SOUR @S1@
3 DATA
4 DATE 5 MAY 1901
1 EVEN
2 TYPE Auswanderung
2 DATE FROM 1720 TO 1722
1 NOTE The line
2 CONT 1 DATE 3 MAR 1700
2 CONC  goes on
0 @I2@ INDI
1 NAME Anna /Böhm/
1 DEAT
2 DATE (an Ostern)
0 @I2@ INDI
1 NAME Another
0 TRLR
",
        dates: "\
|||||||gregorian|3 MAR 2020
@F1@|Karl /Vogel/|Anna /Böhm/|MARR|||Mainz|republican|15 VENT 6
@I1@|Karl /Vogel/||BIRT|||Riga|julian|10 FEB 1699
@I1@|Karl /Vogel/||BIRT|DATA|||gregorian|5 MAY 1901
@I1@|Karl /Vogel/||EVEN||Auswanderung||gregorian|FROM 1720 TO 1722
@I2@|Anna /Böhm/||DEAT||||gregorian|(an Ostern)
",
    },
    Case {
        tree: "0 @X@ INDI\r\n1 BIRT\r\n2 DATE HEBREW 5 TSH 5507\r\n1 DEAT\r\n2 DATE JULIAN 1 JAN 1800\r\
2 DATE  FRENCH_R 1 COMP 3\r\n\r\n  2 DATE 1 \u{c4}pril 1800\n\n1 BAPM\n2 PLAC Graz",
        dates: "\
@X@|||BIRT||||hebrew|5 TSH 5507
@X@|||DEAT||||julian|1 JAN 1800
@X@|||DEAT||||republican|1 COMP 3
@X@|||DEAT||||gregorian|1 \u{c4}pril 1800
",
    },
    Case {
        tree: "0 DATE 1 JAN 1700\nDATE\n1 DATED x\n100 DATE y\nx1 DATE z\n1DATE\n\n2 DATE",
        dates: "|||DATED||||gregorian|\n",
    },
    Case {
        tree: "\
0 @I1@ INDI
1 BIRT
2 PLAC Neukirchen an der Plei
3 CONC ße, Kreis
3 CONC  Zwickau
3 MAP
3 CONC lost
2 DATE 1 MAY 1801
3 CONC none
1 DEAT
2 DATE 2 MAY 1801
2 PLAC Graz
3 CONC , Steiermark
4 CONC none
2 PLAC Wien
1 BURI
2 DATE 3 MAY 1801
2 PLAC
3 CONC Linz
1 EVEN
3 CONC none
2 DATE 4 MAY 1801
",
        dates: "\
@I1@|||BIRT|||Neukirchen an der Pleiße, Kreis Zwickau|gregorian|1 MAY 1801
@I1@|||DEAT|||Graz, Steiermark|gregorian|2 MAY 1801
@I1@|||BURI|||Linz|gregorian|3 MAY 1801
@I1@|||EVEN||||gregorian|4 MAY 1801
",
    },
    Case {
        tree: "\
0 @I1@ INDI
1 BIRT
2 DATE BEF @#DJULIAN@ 1 MAY 1700
2 DATE BET @#DJULIAN@ 1700 AND @#DJULIAN@ 1705
2 DATE FROM @#DFRENCH R@ 1 VEND 2 TO @#DFRENCH R@ 3 VEND 2
2 DATE AFT @#DHEBREW@ TSH 5507
2 DATE INT @#DJULIAN@ 1 MAY 1700 (May day)
2 DATE FROM @#DGREGORIAN@ 1700
2 DATE TO @#DJULIAN@  1700
2 DATE BET @#DJULIAN@ 1700 AND 1705
2 DATE BET 1700 AND @#DJULIAN@ 1705
2 DATE BET @#DJULIAN@ 1700 AND @#DHEBREW@ 5507
2 DATE FROM @#DGREGORIAN@ 1700 TO 1705
2 DATE BET @#DJULIAN@ 1700
2 DATE @#DJULIAN@ BET 1700 AND 1705
2 DATE @#DJULIAN@ BEF 1 MAY 1700
1 DEAT
2 DATE ABT JULIAN 1700
2 DATE CAL HEBREW 5 TSH 5507
2 DATE EST FRENCH_R 2
2 DATE BET JULIAN 1700 AND JULIAN 1705
2 DATE FROM FRENCH_R 1 VEND 2 TO FRENCH_R 3 VEND 2
2 DATE FROM JULIAN 1700
2 DATE FROM TO JULIAN 1705
2 DATE BET JULIAN 1700 AND GREGORIAN 1705
2 DATE BET  1700  AND  1705
2 DATE BEF JULIANA
2 DATE Bef JULIAN 1700
",
        dates: "\
@I1@|||BIRT||||julian|BEF 1 MAY 1700
@I1@|||BIRT||||julian|BET 1700 AND 1705
@I1@|||BIRT||||republican|FROM 1 VEND 2 TO 3 VEND 2
@I1@|||BIRT||||hebrew|AFT TSH 5507
@I1@|||BIRT||||julian|INT 1 MAY 1700 (May day)
@I1@|||BIRT||||gregorian|FROM 1700
@I1@|||BIRT||||julian|TO 1700
@I1@|||BIRT||||gregorian|BET @#DJULIAN@ 1700 AND 1705
@I1@|||BIRT||||gregorian|BET 1700 AND @#DJULIAN@ 1705
@I1@|||BIRT||||gregorian|BET @#DJULIAN@ 1700 AND @#DHEBREW@ 5507
@I1@|||BIRT||||gregorian|FROM 1700 TO 1705
@I1@|||BIRT||||gregorian|BET @#DJULIAN@ 1700
@I1@|||BIRT||||julian|BET 1700 AND 1705
@I1@|||BIRT||||julian|BEF 1 MAY 1700
@I1@|||DEAT||||julian|ABT 1700
@I1@|||DEAT||||hebrew|CAL 5 TSH 5507
@I1@|||DEAT||||republican|EST 2
@I1@|||DEAT||||julian|BET 1700 AND 1705
@I1@|||DEAT||||republican|FROM 1 VEND 2 TO 3 VEND 2
@I1@|||DEAT||||julian|FROM 1700
@I1@|||DEAT||||gregorian|FROM TO JULIAN 1705
@I1@|||DEAT||||gregorian|BET JULIAN 1700 AND GREGORIAN 1705
@I1@|||DEAT||||gregorian|BET  1700  AND  1705
@I1@|||DEAT||||gregorian|BEF JULIANA
@I1@|||DEAT||||gregorian|Bef JULIAN 1700
",
    },
    Case {
        tree: "",
        dates: "",
    },
];

/// Appends a field, and a bar.
fn push_field(lines: &mut Vec<u8>, field: &[u8]) -> Result<(), AllocError> {
    lines.extend_from_slice(field)?;
    lines.push(b'|')?;
    Ok(())
}

/// Appends a date as a line.
fn push_line(lines: &mut Vec<u8>, it: &TreeDate) -> Result<(), AllocError> {
    push_field(lines, it.number)?;
    push_field(lines, it.name)?;
    push_field(lines, it.partner)?;
    push_field(lines, it.event)?;
    push_field(lines, it.part)?;
    push_field(lines, it.kind)?;
    push_field(lines, it.place.as_slice())?;
    push_field(lines, it.calendar)?;
    lines.extend_from_slice(it.date.as_slice())?;
    lines.push(b'\n')?;
    Ok(())
}

/// Whether the dates of a tree are these.
fn has_dates(alloc: Global, case: &Case) -> Result<bool, AllocError> {
    let mut lines = Vec::new(alloc);
    for date in &dates_of(alloc, case.tree.as_bytes())? {
        push_line(&mut lines, date)?;
    }
    Ok(lines.as_slice() == case.dates.as_bytes())
}

#[test]
fn trees_have_their_dates(rt: HostRuntime) -> Result<(), Fail> {
    for case in &CASES {
        assert!(rt; has_dates(rt.alloc(), case)?, "at {:?}", case.tree);
    }
    Ok(())
}

/// A tree with the mark of UTF-8, of which the file has dates too.
const OWN_TREE: &str = "\u{feff}\
0 HEAD
1 DATE 3 MAR 2020
0 @I1@ INDI
1 NAME Anna, Böhm
1 BIRT
2 DATE 10 FEB 1699
1 CHAN
2 DATE 4 MAR 2020
3 TIME 12:00
1 _CREA
2 DATE 5 MAR 2020
1 CHANGE
2 DATE 1720
0 TRLR
";

/// The sheet of its own dates.
const OWN_SHEET: &str = "\
record,name,partner,event,part,type,place,calendar,date
@I1@,\"Anna, Böhm\",,BIRT,,,,gregorian,10 FEB 1699
@I1@,\"Anna, Böhm\",,CHANGE,,,,gregorian,1720
";

#[test]
fn a_sheet_has_no_dates_of_the_file(rt: HostRuntime) -> Result<(), Fail> {
    let sheet = own_tree_sheet(rt.alloc(), OWN_TREE.as_bytes())?;
    assert!(rt; sheet.as_slice() == OWN_SHEET.as_bytes());
    Ok(())
}

#[test]
fn trees_begin_with_their_header(rt: HostRuntime) -> Result<(), Fail> {
    let trees = [
        OWN_TREE,
        "0 HEAD",
        "\r\n  0 HEAD\r\n1 CHAR UTF-8",
        "x\n0 HEAD 1",
    ];
    let others = [
        "",
        "0 HEADING,d\n",
        "1 HEAD",
        "0 @I1@ INDI\n0 HEAD",
        "0 head",
        "record,name\n",
    ];
    assert!(rt; trees.iter().all(|text| is_tree(text.as_bytes())));
    assert!(rt; !others.iter().any(|text| is_tree(text.as_bytes())));
    Ok(())
}
