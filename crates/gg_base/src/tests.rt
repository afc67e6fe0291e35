// The rows: arithmetic and relations, with values worked out on the signed numbers.
use crate::{Bytes, Name, Rel, Size, Text, put_signed, w32};
use std::test::Fail;

const MIN: u32 = 0x8000_0000;

const MINUS_ONE: u32 = 0xffff_ffff;

#[test]
fn arithmetic(rt: HostRuntime) {
    let rows = [
        (w32::add(MINUS_ONE, 2), 1),
        (w32::sub(2, 5), 0xffff_fffd),
        (w32::mul(0x1_0001, 0x1_0001), 0x2_0001),
        (w32::and(0b1100, 0b1010), 0b1000),
        (w32::or(0b1100, 0b1010), 0b1110),
        (w32::xor(0b1100, 0b1010), 0b0110),
        (w32::neg(7), 0xffff_fff9),
        (w32::neg(MIN), MIN),
        (w32::com(0x0f0f_0f0f), 0xf0f0_f0f0),
        (w32::sext8(0x1c8), 0xffff_ffc8),
        (w32::sext8(0x17f), 0x7f),
        (w32::sext16(0x1_1170), 0x1170),
        (w32::sext16(0x8000), 0xffff_8000),
        (w32::zext8(0x1c8), 0xc8),
        (w32::zext16(0x1_8000), 0x8000),
        (w32::ash(3, 5), 40),
        (w32::ash(31, 1), MIN),
        (w32::ash(32, 1), 0),
        (w32::ash(0xff, 0xffff_fff8), 0xffff_fffc),
        (w32::ash(0xfe, 0x7fff_ffff), 0x1fff_ffff),
        (w32::ash(0x80, MIN), MINUS_ONE),
        (w32::ash(0x101, 3), 6),
    ];
    for (found, wanted) in rows {
        assert_eq!(rt; found, wanted);
    }
}

#[test]
fn quotients(rt: HostRuntime) {
    let rows = [
        (w32::div(7, 2), Some(3)),
        (w32::div(0xffff_fff9, 2), Some(0xffff_fffd)),
        (w32::div(7, 0xffff_fffe), Some(0xffff_fffd)),
        (w32::div(0xffff_fff9, 0xffff_fffe), Some(3)),
        (w32::div(MIN, MINUS_ONE), Some(MIN)),
        (w32::div(1, MIN), Some(0)),
        (w32::div(1, 0), None),
    ];
    for (found, wanted) in rows {
        assert_eq!(rt; found, wanted);
    }
}

#[test]
fn relations(rt: HostRuntime) {
    let rows = [
        (Rel::Eq, [false, true, false]),
        (Rel::Ne, [true, false, true]),
        (Rel::Lt, [true, false, false]),
        (Rel::Le, [true, true, false]),
        (Rel::Gt, [false, false, true]),
        (Rel::Ge, [false, true, true]),
        (Rel::Ltu, [false, false, true]),
        (Rel::Leu, [false, true, true]),
        (Rel::Gtu, [true, false, false]),
        (Rel::Geu, [true, true, false]),
    ];
    for (relation, wanted) in rows {
        let found = [
            relation.holds(MINUS_ONE, 1),
            relation.holds(1, 1),
            relation.holds(1, MINUS_ONE),
        ];
        assert_eq!(rt; found, wanted);
    }
}

#[test]
fn signed_numbers(rt: HostRuntime) -> Result<(), Fail> {
    let rows = [
        (0, b"0".as_slice()),
        (5, b"5".as_slice()),
        (0x7fff_ffff, b"2147483647".as_slice()),
        (MIN, b"-2147483648".as_slice()),
        (MINUS_ONE, b"-1".as_slice()),
    ];
    for (number, wanted) in rows {
        let mut written = Vec::new(rt.alloc());
        put_signed(&mut written, number)?;
        assert_eq!(rt; written.as_slice(), wanted);
    }
    Ok(())
}

#[test]
fn bytes_and_sizes(rt: HostRuntime) -> Result<(), Fail> {
    let alloc = rt.alloc();
    assert_eq!(rt;
        Name::from_vec(b"main".to_vec(alloc)?).as_slice(),
        b"main".as_slice()
    );
    assert_eq!(rt;
        Bytes::from_vec(b"ab".to_vec(alloc)?).into_vec().as_slice(),
        b"ab".as_slice()
    );
    assert_eq!(rt;
        Text::from_vec(b"ok".to_vec(alloc)?).as_slice(),
        b"ok".as_slice()
    );
    assert_eq!(rt;
        [Size::Byte.bytes(), Size::Word.bytes(), Size::Long.bytes()],
        [1, 2, 4]
    );
    Ok(())
}
