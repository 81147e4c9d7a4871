//! The numbers of controls: values moved between their bounds, highlighting, and part codes.

use control_values::{ControlPart, ControlValues, Highlight};
use std::test::Fail;
use tb_geom::Refusal;

/// The parts, each with its part code.
const PARTS: [(ControlPart, u8); 7] = [
    (ControlPart::Button, 10),
    (ControlPart::CheckBox, 11),
    (ControlPart::UpButton, 20),
    (ControlPart::DownButton, 21),
    (ControlPart::PageUp, 22),
    (ControlPart::PageDown, 23),
    (ControlPart::Thumb, 129),
];

#[test]
fn parts_have_their_codes(rt: HostRuntime) {
    for (part, code) in PARTS {
        assert!(rt; part.number() == code && ControlPart::of_number(code) == Some(part));
    }
    assert!(rt; ControlPart::of_number(12) == None);
}

/// Numbers, and whether they say how a control is highlighted.
const HIGHLIGHTS: [(i32, bool); 7] = [
    (-1, false),
    (0, true),
    (10, true),
    (253, true),
    (254, false),
    (255, true),
    (256, false),
];

#[test]
fn highlights_are_numbers_but_254(rt: HostRuntime) -> Result<(), Fail> {
    for (number, told) in HIGHLIGHTS {
        match Highlight::of_number(number) {
            Ok(highlight) => assert!(rt; told && i32::from(highlight.number()) == number),
            Err(refusal) => assert!(rt; !told && refusal == Refusal::OutOfRange),
        }
    }
    assert!(rt; Highlight::of_number(255) == Ok(Highlight::inactive()));
    assert!(rt; Highlight::inactive().is_inactive() && !Highlight::none().is_inactive());
    let thumb = Highlight::of_part(ControlPart::Thumb);
    assert!(rt;
        thumb.number() == 129
            && thumb.shows(ControlPart::Thumb)
            && !thumb.shows(ControlPart::PageUp)
    );
    Ok(())
}

/// What is set of a control.
#[derive(Clone, Copy)]
enum Set {
    Value(i32),
    Minimum(i32),
    Maximum(i32),
}

/// What is set of a control of minimum 0, maximum 32 and value 8, whether that is done, and the minimum, the maximum and the
/// value after it.
const SETS: [(Set, bool, [i16; 3]); 9] = [
    (Set::Value(18), true, [0, 32, 18]),
    (Set::Minimum(33), false, [0, 32, 18]),
    (Set::Maximum(4), true, [0, 4, 4]),
    (Set::Value(-1), true, [0, 4, 0]),
    (Set::Value(32768), false, [0, 4, 0]),
    (Set::Minimum(3), true, [3, 4, 3]),
    (Set::Value(32767), true, [3, 4, 4]),
    (Set::Maximum(2), false, [3, 4, 4]),
    (Set::Minimum(-32769), false, [3, 4, 4]),
];

#[test]
fn values_stay_between_their_bounds(rt: HostRuntime) -> Result<(), Fail> {
    let mut values = ControlValues::new(0, 32, 8)?;
    for (set, done, [minimum, maximum, value]) in SETS {
        let answer = match set {
            Set::Value(number) => values.set_value(number),
            Set::Minimum(number) => values.set_minimum(number),
            Set::Maximum(number) => values.set_maximum(number),
        };
        assert!(rt;
            answer
                == if done {
                    Ok(())
                } else {
                    Err(Refusal::OutOfRange)
                }
        );
        assert!(rt;
            values.minimum() == minimum && values.maximum() == maximum && values.value() == value
        );
    }
    assert!(rt; ControlValues::new(1, 0, 0) == Err(Refusal::OutOfRange));
    Ok(())
}
