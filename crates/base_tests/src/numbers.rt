//! Tests of fractions and of the room that numbers have.
use hopf_num::{Fraction, fits};

#[test]
fn fits_below_the_limit(rt: HostRuntime) {
    let most = (1 << 127) - 1;
    for (left, right, shift, answer) in [
        (most, 1, 0, true),
        (1 << 127, 1, 0, false),
        (1, most, 0, true),
        (1 << 63, 1 << 63, 0, true),
        (1 << 63, 1 << 64, 0, false),
        (u128::MAX, u128::MAX, 0, false),
        (0, u128::MAX, 120, true),
        (127, 1, 120, true),
        (128, 1, 120, false),
    ] {
        assert_eq!(rt;
            fits(left, right, shift),
            answer,
            "at {left}, {right}, {shift}"
        );
    }
}

#[test]
fn fractions_of_an_example(rt: HostRuntime) {
    let half = Fraction::new(-3, -6).expect(&rt, "1/2");
    let third = Fraction::new(2, 6).expect(&rt, "1/3");
    let sum = half.add(&third).expect(&rt, "5/6");
    assert_eq!(rt; (sum.num(), sum.den()), (5, 6));
    let product = sum.mul(&half.neg()).expect(&rt, "-5/12");
    assert_eq!(rt; (product.num(), product.den()), (-5, 12));
    let mut text = [0; 80];
    let length = product.write(&mut text);
    assert_eq!(rt; &text[..length], b"-5/12".as_slice());
}
