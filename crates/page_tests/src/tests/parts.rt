//! Sheets whose dates stand in three columns, and what the rule of joined dates makes of them, found by hand.

use date_parts::{DatePlaces, joined_sheet};
use std::alloc::{AllocError, Global};
use std::test::Fail;

/// A sheet, its delimiter, how many records stand above its names, and the same with dates.
#[derive(Drop)]
struct Case {
    sheet: &'static str,
    delimiter: u8,
    above: u32,
    joined: &'static str,
}

// Year, month and day stand in the first three columns.
static CASES: [Case; 8] = [
    // Digits; a name; without a day, a month, a year; of nothing.
    Case {
        sheet: "y,m,d\n1806,5,12\n0806,05,1\n1806,Mai,12\n1806,Mai,\n1806,,12\n,5,12\n1806,,\n,,12\n,,\n",
        delimiter: b',',
        above: 0,
        joined: "\
y,m,d,y-m-d
1806,5,12,1806-5-12
0806,05,1,0806-05-1
1806,Mai,12,12 Mai 1806
1806,Mai,,Mai 1806
1806,,12,12 1806
,5,12,12 5
1806,,,1806
,,12,12
,,,
",
    },
    // Not digits only: a minus, a point, a question mark, a blank within.
    Case {
        sheet: "y,m,d\n-44,3,15\n1806,5.,12\n1806?,5,12\n1806,1 0,12\n",
        delimiter: b',',
        above: 0,
        joined: "\
y,m,d,y-m-d
-44,3,15,15 3 -44
1806,5.,12,12 5. 1806
1806?,5,12,12 5 1806?
1806,1 0,12,12 1 0 1806
",
    },
    // Blanks at the ends of fields and of names, blanks alone, and blanks within a field.
    Case {
        sheet: " y, m ,d \n 1806,5 ,\t12\n1806, ,  \n1806, erster  Mai , 1\n",
        delimiter: b',',
        above: 0,
        joined: " y, m ,d ,y-m-d\n 1806,5 ,\t12,1806-5-12\n1806, ,  ,1806\n1806, erster  Mai , 1,1 erster  Mai 1806\n",
    },
    // Records of other lengths than the names have.
    Case {
        sheet: "y,m,d\n1806,5\n1806,5,12,x,y\n\n1806\n",
        delimiter: b',',
        above: 0,
        joined: "y,m,d,,,y-m-d\n1806,5,,,,5 1806\n1806,5,12,x,y,1806-5-12\n1806,,,,,1806\n",
    },
    // Longer titles above the names stay as they are.
    Case {
        sheet: "a;b;c;d;e\n\nf\ny;m;d\n1806;5;12\n",
        delimiter: b';',
        above: 2,
        joined: "a;b;c;d;e\nf\ny;m;d;y-m-d\n1806;5;12;1806-5-12\n",
    },
    // Quotes where they must be, and what they have within.
    Case {
        sheet: "\"y;\";m;d;\"a\"\n1806;\"Mai;\";12;\"b\nc\"\n1806;\"\"\"V\"\"\";12;d\n",
        delimiter: b';',
        above: 0,
        joined: "\"y;\";m;d;a;\"y;-m-d\"\n1806;\"Mai;\";12;\"b\nc\";\"12 Mai; 1806\"\n\
                 1806;\"\"\"V\"\"\";12;d;\"12 \"\"V\"\" 1806\"\n",
    },
    Case {
        sheet: "y\tm\td\n1806\tMai, Juni\t12",
        delimiter: b'\t',
        above: 0,
        joined: "y\tm\td\ty-m-d\n1806\tMai, Juni\t12\t12 Mai, Juni 1806\n",
    },
    // No names.
    Case {
        sheet: "1806,5,12\n",
        delimiter: b',',
        above: 1,
        joined: "1806,5,12\n",
    },
];

/// A sheet with dates, behind this text.
fn joined(alloc: Global, front: &[u8], case: &Case) -> Result<Vec<u8>, AllocError> {
    let mut text = Vec::new(alloc);
    text.extend_from_slice(front)?;
    let places = DatePlaces {
        year: 0,
        month: 1,
        day: 2,
    };
    joined_sheet(
        alloc,
        text,
        case.sheet.as_bytes(),
        case.delimiter,
        case.above,
        places,
    )
}

#[test]
fn dates_are_joined_by_the_rule(rt: HostRuntime) -> Result<(), Fail> {
    for case in &CASES {
        let made = joined(rt.alloc(), b"", case)?;
        assert!(rt; made.as_slice() == case.joined.as_bytes());
    }
    Ok(())
}

#[test]
fn the_mark_of_utf_8_stands_in_front_once(rt: HostRuntime) -> Result<(), Fail> {
    let case = Case {
        sheet: "\u{feff}d,m,y\n1,2,3\n",
        delimiter: b',',
        above: 0,
        joined: "\u{feff}d,m,y,d-m-y\n1,2,3,1-2-3\n",
    };
    let made = joined(rt.alloc(), "\u{feff}".as_bytes(), &case)?;
    assert!(rt; made.as_slice() == case.joined.as_bytes());
    Ok(())
}
