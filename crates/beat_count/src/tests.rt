// What each call answers, on numbers worked out by hand.

use crate::{Beat, Fuel, join_stops};
use tp_value::{Place, Stop, TrapKind};

#[test]
fn a_beat_diverts_once(rt: HostRuntime) {
    let mut beat = Beat::new();
    beat.count_one();
    beat.count_many(1);
    for want in [true, false, false] {
        assert_eq!(rt; beat.enter(2, true, true), want);
    }
    for want in [true, false] {
        assert_eq!(rt; beat.take(), want);
    }
    assert_eq!(rt; beat.merged(), Beat::new());
}

#[test]
fn a_beat_is_calm_until_it_is_due(rt: HostRuntime) {
    let mut beat = Beat::new();
    beat.count_many(3);
    assert_eq!(rt; beat.calm(10, true, true), 7);
    assert_eq!(rt; beat.calm(2, true, true), 0);
    assert_eq!(rt; beat.calm(2, false, true), u64::MAX);
    assert_eq!(rt; beat.enter(2, true, true), true);
    assert_eq!(rt; beat.calm(10, true, false), 0);
}

#[test]
fn a_tick_beyond_the_limit_stops(rt: HostRuntime) {
    let mut fuel = Fuel::at(3, 1);
    for (within, ticks) in [(true, 2), (true, 3), (false, 4), (false, 4)] {
        assert_eq!(rt; fuel.spend(), within);
        assert_eq!(rt; fuel.spent(), ticks);
    }
    assert_eq!(rt; Fuel::new(5).limit(), 5);
}

#[test]
fn stops_join_left_first(rt: HostRuntime) {
    let trap = Stop::Trap(TrapKind::Divide, Place { line: 5, col: 23 });
    let cases = [
        (Stop::Done, 6, trap, 4, (trap, 10)),
        (Stop::Done, 6, trap, 5, (Stop::NoFuel, 11)),
        (trap, 6, Stop::NoFuel, 11, (trap, 6)),
        (Stop::Left(5), 3, trap, 1, (Stop::Left(5), 3)),
        (Stop::Left(5), 3, Stop::Done, 9, (Stop::Left(5), 3)),
        (Stop::Left(5), 3, Stop::Left(6), 9, (Stop::Left(5), 3)),
        (Stop::Done, 6, Stop::Left(5), 4, (Stop::Left(5), 10)),
        (Stop::Done, 6, Stop::Left(5), 5, (Stop::NoFuel, 11)),
        (trap, 6, Stop::Left(5), 4, (trap, 6)),
    ];
    for (left, left_ticks, right, right_ticks, want) in cases {
        assert_eq!(rt; join_stops(left, left_ticks, right, right_ticks, 10), want);
    }
}
