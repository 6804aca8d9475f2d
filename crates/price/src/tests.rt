use crate::absolute::Absolute;
use crate::leaning::Leaning;
use crate::rule::PriceRule;
use crate::squared::Squared;
use crate::weight::class_weight;
use limits::Refusal;
use std::process::Abort;
use std::test::Fail;

#[test]
fn weights(rt: HostRuntime) {
    let expected = [0, 1, 3, 6, 10, 15, 21, 28, 36, 45, 55, 66, 78, 91, 105, 120];
    for (class, weight) in (0..16).zip(expected) {
        assert_eq!(rt; class_weight(class), weight);
    }
    assert_eq!(rt; class_weight(16), 0);
}

#[test]
fn greatest_prices(rt: HostRuntime) -> Result<(), Fail> {
    assert_eq!(rt; Absolute::new(1023)?.price(1023, 15, 0), 122_760);
    assert_eq!(rt; Squared::new(1023)?.price(0, 15, 1023), 125_583_480);
    assert_eq!(rt; Leaning::new(1023)?.price(0, 15, 1023), 491_040);
    assert_eq!(rt; Leaning::new(1023)?.price(1023, 15, 0), 122_760);
    Ok(())
}

// The steps two below, one below, at and one above a reading of 5.
fn steps<P: PriceRule>(rule: &P, class: u8) -> [i32; 4] {
    [3, 4, 5, 6].map(|height| rule.step(5, class, height))
}

#[test]
fn steps_around_the_reading(rt: HostRuntime) -> Result<(), Fail> {
    assert_eq!(rt; steps(&Absolute::new(7)?, 2), [-3, -3, 3, 3]);
    assert_eq!(rt; steps(&Squared::new(7)?, 2), [-9, -3, 3, 9]);
    assert_eq!(rt; steps(&Leaning::new(7)?, 2), [-3, -3, 12, 12]);
    Ok(())
}

// All questions that lie one outside the ranges of a rule made for 9.
fn outside<P: PriceRule>(rt: &impl Abort, rule: &P) {
    assert_eq!(rt;
        [
            rule.price(10, 15, 5),
            rule.price(5, 16, 7),
            rule.price(5, 15, 10),
        ],
        [0, 0, 0]
    );
    assert_eq!(rt;
        [
            rule.step(10, 15, 5),
            rule.step(5, 16, 7),
            rule.step(5, 15, 9),
        ],
        [0, 0, 0]
    );
}

#[test]
fn outside_answered_0(rt: HostRuntime) -> Result<(), Fail> {
    outside(&rt, &Absolute::new(9)?);
    outside(&rt, &Squared::new(9)?);
    outside(&rt, &Leaning::new(9)?);
    Ok(())
}

// The number of the refusal, if it is one.
fn refused<T: Drop>(made: Result<T, Refusal>) -> Option<u8> {
    made.err().map(Refusal::number)
}

#[test]
fn greatest_levels(rt: HostRuntime) {
    let expected = [(0, Some(1)), (1, None), (1023, None), (1024, Some(1))];
    for (level, number) in expected {
        assert_eq!(rt; refused(Absolute::new(level)), number);
        assert_eq!(rt; refused(Squared::new(level)), number);
        assert_eq!(rt; refused(Leaning::new(level)), number);
    }
}
