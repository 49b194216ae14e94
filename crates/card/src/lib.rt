// The card: for each product state either lost, or its best and its least average reward.
#![tactic(auto)]

ghost use Rattle.std.specs.Prelude.{◌≡◌};
ghost use Rattle.card.specs.Model.Card.{Summed, Worked, averages_of, card_entry, lost_card, card_of};

use averages::average;
use records::limits::Limits;

// The best and the least average reward of a kept state.
#[derive(Clone, Copy)]
pub struct Averages {
    pub best: f64,
    pub least: f64,
}

// What the card says of a product state. No Option: the project's papers fix this enum of two cases, and the struct above.
#[derive(Clone, Copy)]
pub enum Prospect {
    Lost,
    Worth(Averages),
}

// The number of product states, and an entry for each in number order; entries past the count are lost.
// An array with its count: memory is fixed, there is no heap, and C is handed all entries.
#[derive(Clone, Copy)]
pub struct Card {
    pub count: usize,
    pub entries: [Prospect; Limits::STATES],
}

// The averages of two sums over a number of words.
#[tactic(auto, unfolding(crate::specs::Model::Card::averages_of))]
pub fn averaged(best: u64, least: u64, words: u64) -> Averages
    requires { Summed best least words }
    ensures { result ≡ averages_of best least words }
{
    Averages {
        best: average(best, words),
        least: average(least, words),
    }
}

// The entry of a state: lost unless the round that dropped it is 0, which is none.
#[tactic(auto, unfolding(crate::specs::Model::Card::card_entry))]
pub fn entry_at(round: u16, best: u64, least: u64, words: u64) -> Prospect
    requires { Summed best least words }
    ensures { result ≡ card_entry round best least words }
{
    if round != 0 {
        return Prospect::Lost;
    }
    Prospect::Worth(averaged(best, least, words))
}

impl Card {
    // No state, every entry lost.
    #[tactic(auto, unfolding(crate::specs::Model::Card::lost_entries, crate::specs::Model::Card::lost_card))]
    pub fn lost() -> Card
        ensures { result ≡ lost_card }
    {
        Card {
            count: 0,
            entries: [Prospect::Lost; Limits::STATES],
        }
    }

    // The card of `n` states, each with the round that dropped it and with its two sums over a number of words.
    pub fn of(dropped: &[u16], bests: &[u64], leasts: &[u64], words: u64, n: usize) -> Card
        requires { Worked dropped.now bests.now leasts.now words n }
        ensures { result ≡ card_of dropped.now bests.now leasts.now words n }
    {
        let mut card = Card::lost();
        // By index: the three slices are work memory that the C interface lends apart.
        for s in 0..n {
            card.entries[s] = entry_at(dropped[s], bests[s], leasts[s], words);
        }
        card.count = n;
        card
    }
}
