// Senders walked to the end of their chains, beside a key chain kept whole.
#![tactic(auto)]

#[cfg(test)]
mod walks;

#[cfg(test)]
mod tests {
    use crate::walks::walk;
    use keychain::key::Key;
    use sender::state::Sender;
    use std::test::Fail;
    use timing::parameters::{Numbers, Parameters};
    use timing::refusal::number_of;
    use turns::Turn;

    // Every key and tag that is sent, and every key that is held, is the whole chain's: last interval, delay, and intervals from tick to tick.
    #[test]
    fn walked_to_the_end(rt: HostRuntime) -> Result<(), Fail> {
        let table: [(u16, u8, u32); 14] = [
            (1, 1, 1),
            (1, 8, 1),
            (127, 1, 1),
            (128, 8, 1),
            (129, 3, 1),
            (1030, 1, 1),
            (3000, 8, 1),
            (16384, 2, 1),
            (1030, 5, 127),
            (3000, 8, 128),
            (3000, 1, 129),
            (3000, 8, 300),
            (16384, 8, 1000),
            (16384, 4, 16383),
        ];
        for (last, delay, stride) in table {
            let last_told = walk(rt.alloc(), last, delay, stride)?;
            assert!(rt; last_told || stride > 1);
        }
        Ok(())
    }

    // The turns, written out around 1,024 and 2,048.
    #[test]
    fn turns_written_out(rt: HostRuntime) {
        let table: [(u16, u16); 12] = [
            (1022, 1022),
            (1023, 1023),
            (1024, 1024),
            (1025, 1024),
            (1026, 1026),
            (1027, 1024),
            (2047, 2047),
            (2048, 2048),
            (2049, 2049),
            (2050, 1024),
            (2051, 2051),
            (2052, 2048),
        ];
        let mut turn = Turn::first();
        for (newest, expected) in table {
            let (told, next) = turn.next(newest);
            assert!(rt; told == expected);
            turn = next;
        }
    }

    // A refusal changes nothing, sends nothing and uses no index.
    #[test]
    fn refused(rt: HostRuntime) -> Result<(), Fail> {
        let drawn = Key { bytes: [7; 32] };
        assert!(rt; Sender::from_numbers(numbers(0, 1, 0, 1), 0, drawn).is_err());
        assert!(rt; Sender::from_numbers(numbers(10, 9, 0, 1), 0, drawn).is_err());
        assert!(rt; Sender::from_numbers(numbers(10, 1, 5, 1), 0, drawn).is_err());
        assert!(rt; Sender::from_numbers(numbers(10, 1, 0, 16385), 0, drawn).is_err());
        let (mut sender, _) = Sender::new(Parameters::new(10, 1, 0, 2)?, 0, drawn);
        let mut out = [0u8; 256];
        assert!(rt; number_of(&sender.say(&[1; 201], &mut out)) == 1);
        for i in 0u8..64 {
            assert!(rt; number_of(&sender.say(&[i], &mut out)) == 0);
            assert!(rt; out[3] == i);
        }
        assert!(rt; number_of(&sender.say(&[64], &mut out)) == 2);
        assert!(rt; out[3] == 63);
        assert!(rt; number_of(&sender.tick(10)) == 0);
        assert!(rt; number_of(&sender.tick(9)) == 10);
        assert!(rt; number_of(&sender.say(&[1; 200], &mut out)) == 0);
        assert!(rt; out[2] == 2);
        assert!(rt; out[3] == 0);
        assert!(rt; number_of(&sender.tick(20)) == 0);
        assert!(rt; number_of(&sender.say(&[], &mut out)) == 2);
        Ok(())
    }

    fn numbers(ticks: u64, delay: u64, error: u64, last: u64) -> Numbers {
        Numbers {
            ticks,
            delay,
            error,
            last,
        }
    }
}
