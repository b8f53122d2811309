// A play on a stage, and its verdicts.
use crate::fates::{Play, verdict};
use keychain::key::Key;
use receiver::state::Receiver;
use sender::state::Sender;
use stage::cast::{Cast, Out};
use std::alloc::Global;
use std::test::Fail;
use timing::parameters::Parameters;
use wire::settings;

// Intervals of ten seconds, a delay of one, clocks wrong by at most two seconds; so many receivers.
fn cast(heap: Global, receivers: usize) -> Result<Cast, Fail> {
    let drawn = Key { bytes: [7; 32] };
    let (sender, bytes) = Sender::new(Parameters::new(10, 1, 2, 4)?, 0, drawn);
    let settings = settings::read(&bytes)?;
    let mut all = Vec::new(heap);
    for _place in 0..receivers {
        all.push(Receiver::new(settings))?;
    }
    Ok(Cast {
        time: 0,
        sender,
        receivers: all,
        air: Vec::new(heap),
        said: Vec::new(heap),
        out: Out {
            interval: 0,
            key: Key {
                bytes: settings.commitment,
            },
        },
        events: Vec::new(heap),
        unsaid: Vec::new(heap),
    })
}

// A receiver is told what its clock shows, and a record on the air, which count from 1, is brought to it.
fn bring(
    heap: Global,
    cast: &mut Cast,
    clock: u64,
    record: usize,
    place: usize,
) -> Result<(), Fail> {
    // Not `ok_or`, since a `Fail` can't be dropped.
    let Some(sent) = cast.air.get(record.saturating_sub(1)) else {
        return Err(Fail::new("no such record"));
    };
    let bytes = Vec::from_slice(heap, sent.as_slice())?;
    cast.tell(1, place, clock)?;
    cast.hear(1, Some(record as u64), place, bytes.as_slice())?;
    Ok(())
}

// Of three receivers the first hears a message in time and then its key, the second hears it in time and no key,
// and the third hears it when its key may be out.
#[test]
fn one_of_two_believes(rt: HostRuntime) -> Result<(), Fail> {
    let heap = rt.alloc();
    let mut cast = cast(heap, 3)?;
    cast.pass(heap, 1, 5)?;
    cast.say(heap, 2, b"slope 4 is closed")?;
    bring(heap, &mut cast, 6, 1, 0)?;
    bring(heap, &mut cast, 4, 1, 1)?;
    cast.pass(heap, 3, 20)?;
    bring(heap, &mut cast, 20, 1, 2)?;
    bring(heap, &mut cast, 21, 2, 0)?;
    let p = Parameters::new(10, 1, 2, 4)?;
    let play = Play {
        parameters: p,
        said: cast.said.as_slice(),
        events: cast.events.as_slice(),
        receivers: 3,
    };
    let fates = play.fates(heap)?;
    let v = verdict(fates.of_message(1));
    assert!(rt; v.reached == 2);
    assert!(rt; v.believed == 1);
    assert!(rt; v.no_key == 1);
    assert!(rt; v.no_room == 0);
    assert!(rt; v.outside == 0);
    assert!(rt; cast.unsaid.is_empty());
    let before = cast.events.len();
    cast.judge(4, 0, 3)?;
    assert!(rt; before < cast.events.len());
    Ok(())
}
