// Charges added, turned and compared.
use charge::{Both, Cents, Channels, Charge, Pitch, Voices, difference};

#[test]
fn voices_wrap(rt: HostRuntime) {
    let most = Voices { count: i64::MAX };
    assert_eq!(rt; most.plus(Voices { count: 1 }).count, i64::MIN);
    assert_eq!(rt; Voices { count: i64::MIN }.opposite().count, i64::MIN);
    assert!(rt;
        Voices {
            count: 2_147_483_647,
        }
        .is_entry()
    );
    assert!(rt;
        !Voices {
            count: 2_147_483_648,
        }
        .is_entry()
    );
    assert!(rt;
        Voices {
            count: -2_147_483_648,
        }
        .is_entry()
    );
}

// A pitch class, or the first where there is no such class.
fn pitch(class: u8) -> Pitch {
    Pitch::new(class).unwrap_or(Pitch::zero())
}

#[test]
fn pitch_classes_turn(rt: HostRuntime) {
    let fifth = pitch(7);
    assert_eq!(rt; fifth.plus(fifth).class(), 2);
    assert_eq!(rt; fifth.opposite().class(), 5);
    assert_eq!(rt; Pitch::zero().opposite().class(), 0);
    assert!(rt; Pitch::new(12).is_none());
}

#[test]
fn channels_toggle(rt: HostRuntime) {
    let low = Channels { bits: 0b0011 };
    let mid = Channels { bits: 0b0110 };
    assert_eq!(rt; low.plus(mid).bits, 0b0101);
    assert!(rt; low.plus(low).same(Channels::zero()));
}

#[test]
fn both_parts_by_themselves(rt: HostRuntime) {
    let chord = Both {
        voices: Voices { count: 3 },
        pitch: pitch(11),
    };
    let none = difference(chord, chord);
    assert!(rt; none.same(Both::zero()));
    assert_eq!(rt; chord.plus(chord).voices.count, 6);
    assert_eq!(rt; chord.plus(chord).pitch.class(), 10);
}

#[test]
fn cents_carry_and_borrow(rt: HostRuntime) {
    let sharp = Cents { digits: 0x0950 };
    assert_eq!(rt; sharp.plus(Cents { digits: 0x0099 }).digits, 0x1049);
    assert_eq!(rt; sharp.plus(Cents { digits: 0x0250 }).digits, 0);
    assert_eq!(rt; sharp.opposite().digits, 0x0250);
    assert_eq!(rt; Cents::zero().opposite().digits, 0);
    assert!(rt; Cents { digits: 0x1199 }.is_entry());
    assert!(rt; !Cents { digits: 0x1200 }.is_entry());
}

// Digits above 9, and values from an octave on, mean what they stand for modulo 1,200.
#[test]
fn cents_of_any_digits(rt: HostRuntime) {
    let odd = Cents { digits: 0xa00f };
    assert!(rt; !odd.is_entry());
    assert_eq!(rt; odd.value(), 10_015);
    assert!(rt; odd.same(Cents { digits: 0x0415 }));
    assert_eq!(rt; odd.plus(Cents::zero()).digits, 0x0415);
    assert_eq!(rt; Cents::new(415), Some(Cents { digits: 0x0415 }));
    assert!(rt; Cents::new(1_200).is_none());
}
