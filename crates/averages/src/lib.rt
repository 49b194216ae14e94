// Averages: a whole sum over a number of words, as a 64-bit float.
#![tactic(auto)]

ghost use Rattle.std.specs.Prelude.{◌≡◌, ◌^◌, ◌≤◌, ◌<◌};
ghost use Rattle.averages.specs.Meaning.Averages.{average_of};

// The average of a sum over a number of words: both casts lose nothing, and if there are 2^k words nor does the division.
pub fn average(sum: u64, words: u64) -> f64
    requires sum_bound { sum ≤ 2 ^ 53 }
    requires words_bounds { (0 < words) × (words ≤ 2 ^ 53) }
    ensures { result ≡ average_of sum words }
{
    (sum as f64) / (words as f64)
}
