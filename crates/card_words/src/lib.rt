// A card in words, as it crosses to another language.
#![tactic(auto)]

ghost use Rattle.std.specs.Prelude.{◌≡◌, ◌+◌, ◌≤◌, length};
ghost use Rattle.std.proofs.lemmas.List.Edits.{sets};
ghost use Rattle.card_words.specs.Meaning.CardWords.{card_length, entry_words, card_words};
ghost use Rattle.card_words.specs.Model.CardNumbers.{Number, AllNumbers};

use card::{Card, Prospect};
use records::limits::Limits;

// A card's words: its count, then two for each entry.
#[derive(Clone, Copy)]
pub struct CardWords {}

impl CardWords {
    // Both words of an entry that is lost: all ones, which are no number's bits.
    // A mark and no Option: it is a word that crosses to C.
    pub const LOST: u64 = 0xffff_ffff_ffff_ffff;

    // The words of a card.
    pub const LENGTH: usize = 1 + 2 * Limits::STATES;
}

// Writes the words of an entry at an index: the bits of its best average, then of its least.
// An index and no cut of the slice: the promise says of the whole slice that all else stays.
#[tactic(auto, unfolding(crate::specs::Meaning::CardWords::entry_words))]
fn put_entry(words: &mut [u64], at: usize, prospect: Prospect)
    requires at_in_bounds { at + 2 ≤ length words.old }
    requires number { Number prospect }
    ensures { words.new ≡ sets words.old at (entry_words prospect) }
{
    match prospect {
        Prospect::Lost => {
            words[at] = CardWords::LOST;
            words[at + 1] = CardWords::LOST;
        }
        Prospect::Worth(averages) => {
            words[at] = averages.best.to_bits();
            words[at + 1] = averages.least.to_bits();
        }
    }
}

// Writes the words of a card. What stood after them stays.
#[tactic(auto, using(records::specs::Laws::Stores::no_block, records::specs::Laws::Stores::same_blocks, records::specs::Laws::Stores::all_blocks), unfolding(crate::specs::Meaning::CardWords::card_words))]
fn put_card(words: &mut [u64], card: Card)
    requires card_length_in_bounds { card_length ≤ length words.old }
    requires all_numbers { AllNumbers card.entries }
    ensures { words.new ≡ sets words.old 0 (card_words card) }
{
    words[0] = card.count as u64;
    for (s, prospect) in card.entries.iter().enumerate() {
        put_entry(words, 1 + s * 2, *prospect);
    }
}

// The card in words.
#[tactic(auto, using(crate::specs::Laws::CardWords::card_fills))]
pub fn write_card(card: Card, words: &mut [u64; CardWords::LENGTH])
    requires { AllNumbers card.entries }
    ensures { words.new ≡ card_words card }
{
    put_card(words, card);
}
