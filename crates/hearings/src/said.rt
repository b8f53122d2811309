// What is said: an interval, an index and a text.
ghost use Rattle.std.specs.Prelude.{◌≡◌, IfOk};
ghost use Rattle.wire.specs.Values.{said_of};
ghost use Rattle.hearings.specs.Saids.{saying_of, sayings_of, is_among_said, delivery_of, mark};

use crate::event::{Delivery, Saying};
use std::alloc::{AllocError, Global};
use wire::said::Said;

// A copy of its own.
pub fn kept(heap: Global, said: Said<'_>) -> Result<Saying, AllocError>
    ensures { IfOk result (λ s. saying_of s ≡ said_of said.entry) }
{
    Ok(Saying {
        interval: said.interval,
        index: said.index,
        text: Vec::from_slice(heap, said.text)?,
    })
}

// Whether a delivery is among what was said.
pub fn was_said(said: &[Saying], delivered: &Saying) -> bool
    ensures { result ≡ is_among_said (sayings_of said.now) (saying_of delivered.now) }
{
    said.contains(delivered)
}

// A delivery, by whether it is among what was said.
pub fn delivery(said: &[Saying], delivered: Saying) -> Delivery
    ensures { delivery_of result ≡ mark (sayings_of said.now) (saying_of delivered) }
{
    if was_said(said, &delivered) {
        Delivery::Said(delivered)
    } else {
        Delivery::NotSaid(delivered)
    }
}
