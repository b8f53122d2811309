// A receiver for C, over memory that the caller owns. A slice is passed as a pointer and a length.
#![tactic(auto)]

ghost use Rattle.std.specs.Prelude.{◌≡◌};
ghost use Rattle.model.specs.Receiver.{outcome_number};
ghost use Rattle.buffer.specs.Buffers.{saids_of};
ghost use Rattle.wire.specs.Setup.{settings_answer};
ghost use Rattle.buffer.specs.declared.message.Buffered.{Buffered};
ghost use Rattle.receiver.specs.Calls.{own_clock, from_air, state_after, outcome_of, delivered_of};
ghost use Rattle.receiver.specs.Heard.{Became};
ghost use Rattle.receiver.specs.State.{params_of, state_of};
ghost use Rattle.receiver_c.specs.Made.{made_number, Made, record_length, record_over};

use buffer::room::Buffer;
use receiver::calls::{hear_air, hear_clock};
use receiver::outcome;
use receiver::state::Receiver;
use std::mem::size_of;
use wire::{delivery, settings};

// size_t tesla_receiver_size(void);
#[unsafe(no_mangle)]
pub extern "C" fn tesla_receiver_size() -> usize
    ensures { result ≡ 14144 }
{
    size_of::<Receiver>()
}

// size_t tesla_deliveries_size(void);
#[unsafe(no_mangle)]
pub extern "C" fn tesla_deliveries_size() -> usize
    ensures { result ≡ 14088 }
{
    size_of::<Buffer>()
}

// A receiver made from the settings' 47 bytes: 0, or the number of the refusal, and then the memory is as it was.
// uint8_t tesla_receiver_new(void *receiver, const uint8_t *settings, size_t settings_len);
#[unsafe(no_mangle)]
pub extern "C" fn tesla_receiver_new(r: &mut Receiver, bytes: &[u8]) -> u8
    ensures number { result ≡ made_number (settings_answer bytes.now) }
    ensures made { Made (settings_answer bytes.now) r.old r.new }
{
    match settings::read(bytes) {
        Ok(s) => {
            *r = Receiver::new(s);
            0
        }
        Err(e) => u8::from(e),
    }
}

// Bytes of its own clock.
// uint8_t tesla_receiver_clock(void *receiver, const uint8_t *bytes, size_t len);
#[unsafe(no_mangle)]
pub extern "C" fn tesla_receiver_clock(r: &mut Receiver, bytes: &[u8]) -> u8
    ensures state { Became r.old r.new (state_after (params_of r.old) (own_clock bytes.now) (state_of r.old)) }
    ensures number { result ≡ outcome_number (outcome_of (params_of r.old) (own_clock bytes.now) (state_of r.old)) }
{
    outcome::number(hear_clock(r, bytes))
}

// Bytes from the air, and what is delivered.
// uint8_t tesla_receiver_air(void *receiver, const uint8_t *bytes, size_t len, void *deliveries);
#[unsafe(no_mangle)]
pub extern "C" fn tesla_receiver_air(r: &mut Receiver, bytes: &[u8], out: &mut Buffer) -> u8
    ensures state { Became r.old r.new (state_after (params_of r.old) (from_air bytes.now) (state_of r.old)) }
    ensures number { result ≡ outcome_number (outcome_of (params_of r.old) (from_air bytes.now) (state_of r.old)) }
    ensures delivered { saids_of out.new ≡ delivered_of (params_of r.old) (from_air bytes.now) (state_of r.old) }
{
    outcome::number(hear_air(r, bytes, out).outcome)
}

// Delivery number i, from 0, as a record of kind 16 at the front of the memory: its length, or 0 if there is none,
// and then the memory is as it was.
// size_t tesla_delivery(const void *deliveries, size_t i, uint8_t record[256]);
#[unsafe(no_mangle)]
pub extern "C" fn tesla_delivery(out: &Buffer, i: usize, out_record: &mut [u8; 256]) -> usize
    ensures length { (d : Buffered) → result ≡ record_length out.now i d }
    ensures memory { (d : Buffered) → out_record.new ≡ record_over out.now i d out_record.old }
{
    let Some(m) = out.messages().get(i) else {
        return 0;
    };
    delivery::write(m.said(), out_record).unwrap_or(0)
}
