//! Worked examples of visits, layouts and rotations.
ghost use Rattle.std.specs.Prelude.{length};

use crate::{Part, PartRow, Placed, Visit, lay_out, rotate_left, rotate_right, visit};
use lt_ranges::{Key, KeyRange};
use std::test::Fail;

#[test]
fn a_search_goes_where_its_range_sticks_out(rt: HostRuntime) -> Result<(), Fail> {
    let row = KeyRange::new(Key::new(b"d")?, Key::new(b"f")?)?;
    let asked = [
        ("a", "b", true, false),
        ("e", "e", false, false),
        ("a", "z", true, true),
        ("d", "f", false, false),
        ("c", "d", true, false),
        ("f", "g", false, true),
        ("g", "z", false, true),
    ];
    for (left_key, right_key, left, right) in asked {
        let range = KeyRange::new(
            Key::new(left_key.as_bytes())?,
            Key::new(right_key.as_bytes())?,
        )?;
        assert_eq!(rt;
            visit(&row, &range),
            Visit { left, right },
            "{left_key} to {right_key}"
        );
    }
    Ok(())
}

#[test]
fn one_row_is_laid_out_between_its_hangs(rt: HostRuntime) -> Result<(), Fail> {
    let alloc = rt.alloc();
    let range = KeyRange::whole();
    let mut part = Part {
        rows: Vec::new(alloc),
        hangs: Vec::new(alloc),
    };
    part.rows.push(PartRow {
        row: 4,
        owner: 1,
        range,
    })?;
    part.hangs.push(0)?;
    part.hangs.push(6)?;
    let layout = lay_out(alloc, &part)?;
    assert_eq!(rt; layout.top, 5);
    assert_eq!(rt;
        layout.placed.as_slice(),
        [Placed {
            row: 4,
            left: 0,
            right: 6
        }]
        .as_slice()
    );
    Ok(())
}

#[test]
fn rows_turn_and_turn_back(rt: HostRuntime) {
    let top = Placed {
        row: 4,
        left: 3,
        right: 7,
    };
    let low = Placed {
        row: 2,
        left: 0,
        right: 9,
    };
    let (upper, lower) = rotate_right(top, low);
    assert_eq!(rt;
        upper,
        Placed {
            row: 2,
            left: 0,
            right: 5
        }
    );
    assert_eq!(rt;
        lower,
        Placed {
            row: 4,
            left: 9,
            right: 7
        }
    );
    assert_eq!(rt; rotate_left(upper, lower), (top, low));
}
