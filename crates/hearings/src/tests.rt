use crate::event::{Delivery, Saying};
use crate::hearing::Brought;
use crate::place::place;
use crate::said::{delivery, kept};
use crate::sent::sayings;
use orders::command::Whom;
use receiver::state::Receiver;
use std::test::Fail;
use timing::parameters::Parameters;
use timing::refusal::Refusal;
use wire::said::Said;
use wire::settings::Settings;

#[test]
fn a_delivery_is_marked(rt: HostRuntime) -> Result<(), Fail> {
    let heap = rt.alloc();
    let first = Said {
        interval: 1,
        index: 0,
        text: b"open",
    };
    let said = vec![in heap; kept(heap, first)?]?;
    let same = delivery(said.as_slice(), kept(heap, first)?);
    assert!(rt; matches!(same, Delivery::Said(_)));
    for other in [
        Said {
            interval: 2,
            ..first
        },
        Said { index: 1, ..first },
        Said {
            text: b"opem",
            ..first
        },
    ] {
        let marked = delivery(said.as_slice(), kept(heap, other)?);
        assert!(rt; matches!(marked, Delivery::NotSaid(_)));
    }
    Ok(())
}

#[test]
fn bytes_reach_one_or_all(rt: HostRuntime) -> Result<(), Fail> {
    let heap = rt.alloc();
    let settings = Settings {
        start: 0,
        parameters: Parameters::new(60, 1, 5, 3)?,
        commitment: [0; 32],
    };
    let mut receivers = [Receiver::new(settings); 3];
    let brought = Brought {
        heap,
        said: &[],
        bytes: b"made up",
    };
    let all = brought.bring(&mut receivers, Whom::All)?;
    assert_eq!(rt; all.len(), 3);
    for (hearing, number) in all.iter().zip(1u64..) {
        assert_eq!(rt; hearing.receiver, number);
        assert_eq!(rt; hearing.outcome, Err(Refusal::Malformed));
    }
    let one = brought.bring(&mut receivers, Whom::One(3))?;
    assert_eq!(rt; one.len(), 1);
    assert!(rt; brought.bring(&mut receivers, Whom::One(4)).is_err());
    Ok(())
}

#[test]
fn numbers_begin_at_one(rt: HostRuntime) {
    assert_eq!(rt; place(0, 2), Err(Refusal::OutOfRange));
    assert_eq!(rt; place(1, 2), Ok(0));
    assert_eq!(rt; place(2, 2), Ok(1));
    assert_eq!(rt; place(3, 2), Err(Refusal::OutOfRange));
}

#[test]
fn a_key_says_nothing(rt: HostRuntime) -> Result<(), Fail> {
    let heap = rt.alloc();
    let mut key = vec![in heap; 0u8; 35]?;
    key[0] = 2;
    key[2] = 1;
    let air = vec![in heap; key]?;
    let none: Vec<Saying> = sayings(heap, air.as_slice())?;
    assert!(rt; none.is_empty());
    Ok(())
}
