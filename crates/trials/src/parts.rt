//! Cash that is shared, and interest, at their edges.
use sharing::{DayBase, Interest, SharingRefusal, apportion};

const MOST_CASH: u64 = 1_000_000_000_000;

/// The parts of two values; nothing where cash is not shared.
fn shares(cash: u64, one: u64, other: u64) -> Option<(u64, u64)> {
    let mut parts = [7, 7];
    let answer = apportion(cash, &[one, other], &mut parts);
    match answer {
        Ok(()) => Some((parts[0], parts[1])),
        Err(_) => None,
    }
}

#[test]
fn two_parts(rt: HostRuntime) {
    for (cash, one, other, expected) in [
        (1_000, 999_999, 1, Some((999, 1))),
        (1_000, 1_000_000, 1, Some((1_000, 0))),
        (100, 1_500_000, 500_005, Some((75, 25))),
        (
            7,
            30_000_000_000_000_000,
            70_000_000_000_000_000,
            Some((2, 5)),
        ),
        (MOST_CASH, 1, 0, Some((MOST_CASH, 0))),
        (MOST_CASH, 0, 1, Some((0, MOST_CASH))),
        (MOST_CASH, 0, 0, Some((0, MOST_CASH))),
        (0, 3, 4, Some((0, 0))),
        (MOST_CASH, 0, u64::MAX, Some((0, MOST_CASH))),
        (MOST_CASH, 1, u64::MAX, None),
        (MOST_CASH + 1, 1, 1, None),
    ] {
        assert_eq!(rt; (one, shares(cash, one, other)), (one, expected));
    }
}

#[test]
fn three_parts(rt: HostRuntime) {
    let mut parts = [0; 3];
    assert!(rt; apportion(100, &[1, 1, 1], &mut parts).is_ok());
    assert_eq!(rt; parts, [33, 33, 34]);
    assert!(rt; apportion(100, &[0, 0, 0], &mut parts).is_ok());
    assert_eq!(rt; parts, [0, 0, 100]);
    let shorter = apportion(100, &[1, 1], &mut parts);
    assert!(rt; matches!(shorter, Err(SharingRefusal::Lengths)));
    assert_eq!(rt; parts, [0, 0, 100]);
    assert!(rt; apportion(MOST_CASH, &[], &mut []).is_ok());
}

#[test]
fn a_thousand_parts(rt: HostRuntime) {
    let values = [100_000_000_000_000; 1024];
    let mut parts = [0; 1024];
    assert!(rt; apportion(999_999_999_999, &values, &mut parts).is_ok());
    assert_eq!(rt; parts[0], 976_562_499);
    assert_eq!(rt; parts[1], 976_562_500);
    assert_eq!(rt; parts[1023], 976_562_500);
    let mut sum: u64 = 0;
    for part in parts {
        sum = sum.saturating_add(part);
    }
    assert_eq!(rt; sum, 999_999_999_999);
}

#[test]
fn interest(rt: HostRuntime) {
    let gbp = DayBase::Actual365;
    let most_whole = 39_321_000_000_000;
    for (whole, residue, cash, rate, days, expected) in [
        (0, 0, 1_000_000, 50_000, 1, Some((136, 360_000_000))),
        (0, 0, 1_000_000, 50_000, 2, Some((273, 355_000_000))),
        (
            136,
            360_000_000,
            1_000_000,
            50_000,
            1,
            Some((273, 355_000_000)),
        ),
        (
            0,
            0,
            MOST_CASH,
            200_000,
            31,
            Some((16_986_301_369, 315_000_000)),
        ),
        (0, 0, MOST_CASH + 1, 200_000, 31, None),
        (0, 0, MOST_CASH, 200_001, 31, None),
        (0, 0, MOST_CASH, 200_000, 32, None),
        (0, 364_999_999, 1, 1, 1, Some((1, 0))),
        (0, 365_000_000, 1, 1, 1, None),
        (
            most_whole,
            364_999_999,
            0,
            0,
            0,
            Some((most_whole, 364_999_999)),
        ),
        (most_whole + 1, 0, 0, 0, 0, None),
        (u64::MAX, u64::MAX, u64::MAX, u32::MAX, u16::MAX, None),
    ] {
        assert_eq!(rt;
            (
                cash,
                Interest { whole, residue }.accrue(cash, rate, days, gbp)
            ),
            (
                cash,
                expected.map(|(whole, residue)| Interest { whole, residue })
            )
        );
    }
    let usd = DayBase::Actual360;
    let short = Interest {
        whole: 0,
        residue: 359_999_999,
    };
    let one = Interest {
        whole: 1,
        residue: 0,
    };
    assert_eq!(rt; short.accrue(1, 1, 1, usd), Some(one));
    let full = Interest {
        whole: 0,
        residue: 360_000_000,
    };
    assert_eq!(rt; full.accrue(1, 1, 1, usd), None);
    let most = Interest {
        whole: 17_222_222_222,
        residue: 80_000_000,
    };
    assert_eq!(rt;
        Interest::default().accrue(MOST_CASH, 200_000, 31, usd),
        Some(most)
    );
}
