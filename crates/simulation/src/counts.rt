// How much happened.
ghost use Rattle.std.specs.Prelude.{◌≡◌};
ghost use Rattle.simulation.specs.Tallies.{both, of_hearing, of_deed, of_events};

use hearings::event::{Deed, Delivery, Event, Hearing};

#[derive(Clone, Copy, Default, Drop)]
pub struct Counts {
    // records on the air
    pub sent: u64,
    // what the sender refused to say
    pub not_said: u64,
    // how often bytes were brought to a receiver, and how often it refused them
    pub brought: u64,
    pub refused: u64,
    // deliveries, and those of them that the sender said
    pub delivered: u64,
    pub said: u64,
}

impl Counts {
    // The sums, or the most of 64 bits.
    #[tactic(auto, unfolding(crate::specs::Tallies::both))]
    fn and(self, other: Counts) -> Counts
        ensures { result ≡ both self other }
    {
        Counts {
            sent: self.sent.saturating_add(other.sent),
            not_said: self.not_said.saturating_add(other.not_said),
            brought: self.brought.saturating_add(other.brought),
            refused: self.refused.saturating_add(other.refused),
            delivered: self.delivered.saturating_add(other.delivered),
            said: self.said.saturating_add(other.said),
        }
    }

    #[tactic(auto, unfolding(crate::specs::Tallies::of_hearing, crate::specs::Tallies::none))]
    fn of_hearing(hearing: &Hearing) -> Counts
        ensures { result ≡ of_hearing hearing.now }
    {
        let deliveries = hearing.deliveries.as_slice();
        Counts {
            brought: 1,
            refused: u64::from(hearing.outcome.is_err()),
            delivered: deliveries.len() as u64,
            said: deliveries
                .iter()
                .filter(|d| matches!(d, Delivery::Said(_)))
                .count() as u64,
            ..Counts::default()
        }
    }

    #[tactic(auto, unfolding(crate::specs::Tallies::none))]
    fn of_deed(deed: &Deed) -> Counts
        ensures { result ≡ of_deed deed.now }
    {
        match deed {
            Deed::Sent { .. } => Counts {
                sent: 1,
                ..Counts::default()
            },
            Deed::NotSaid(_) => Counts {
                not_said: 1,
                ..Counts::default()
            },
            Deed::Brought { hearings, .. } => hearings.iter().fold(
                Counts::default(),
                |all, hearing| all.and(Counts::of_hearing(hearing)),
            ),
        }
    }

    #[tactic(auto, unfolding(crate::specs::Tallies::none))]
    pub fn of(events: &[Event]) -> Counts
        ensures { result ≡ of_events events.now }
    {
        events.iter().fold(
            Counts::default(),
            |all, event| all.and(Counts::of_deed(&event.deed)),
        )
    }
}
