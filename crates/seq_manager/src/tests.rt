use super::*;

/// A list of sequence numbers with the output number that each is to have.
fn check(rt: &impl std::process::Abort, manager: &mut SeqManager, rows: &[(u16, u16)]) {
    for (number, want) in rows.iter() {
        assert_eq!(rt; manager.input(*number), *want, "at {number}");
    }
}

#[test]
fn numbers_wrap_around_and_come_late(rt: HostRuntime) {
    let mut manager = SeqManager::new();
    check(
        &rt,
        &mut manager,
        &[(65_534, 1), (65_535, 2), (0, 3), (65_533, 0)],
    );
}

#[test]
fn a_further_stretch_goes_on_from_the_greatest(rt: HostRuntime) {
    for number in [0, 5, 6, 40_000, 65_535] {
        let mut manager = SeqManager::default();
        check(&rt, &mut manager, &[(100, 1), (104, 5), (102, 3)]);
        manager.sync();
        manager.sync();
        check(
            &rt,
            &mut manager,
            &[(number, 6), (number.wrapping_add(2), 8)],
        );
        manager.sync();
        check(&rt, &mut manager, &[(number, 9)]);
    }
}

#[test]
fn the_half_range_parts_late_from_later(rt: HostRuntime) {
    // 32,768 above is late, and the greatest stays: 32,767 above it is later.
    let mut manager = SeqManager::new();
    check(
        &rt,
        &mut manager,
        &[(0, 1), (32_768, 32_769), (32_767, 32_768)],
    );
    manager.sync();
    check(&rt, &mut manager, &[(9, 32_769)]);

    let mut manager = SeqManager::new();
    check(&rt, &mut manager, &[(0, 1), (32_768, 32_769)]);
    manager.sync();
    check(&rt, &mut manager, &[(9, 2)]);
}

#[test]
fn more_packets_than_numbers(rt: HostRuntime) {
    let mut manager = SeqManager::new();
    let mut number: u16 = 60_000;
    let mut want: u16 = 1;
    for _turn in 0..200_000u32 {
        assert_eq!(rt; manager.input(number), want, "at {number}");
        number = number.wrapping_add(1);
        want = want.wrapping_add(1);
    }
    manager.sync();
    assert_eq!(rt; manager.input(7), want);
}
