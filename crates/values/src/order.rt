// The sheet's output order: ties go to the output whose first literal holds, then the second, and so on.
// A rank is arithmetic on the bits, without a branch on a literal or a line.
ghost use Rattle.std.specs.Prelude.{◌≡◌, ◌≤◌};
ghost use Rattle.records.specs.Meaning.Limits.{max_outputs, max_outs};
ghost use Rattle.records.specs.Meaning.Lists.{tab};
ghost use Rattle.values.specs.Model.Rank.{literal_digit, rank_by};
ghost use Rattle.values.specs.Promises.Rank.{Ranked};

use records::limits::Limits;

// 1 if a literal holds of an output, 0 if not: its line's bit, turned over where off is preferred.
// `off` is 0 for a literal below 8 and 1 from 8 on.
pub fn digit_of(literal: u8, o: usize) -> usize
    ensures { result ≡ literal_digit literal o }
{
    let bit = (o >> (literal % 8)) % 2;
    let off = (literal as usize + 248) / 256;
    bit ^ off
}

// The rank of an output by the first `count` literals: their digits read as a binary number, the first highest.
pub fn rank_of(literals: [u8; Limits::OUTPUTS as usize], count: usize, o: usize) -> usize
    requires { count ≤ max_outputs }
    ensures { Ranked literals count o result }
{
    let mut rank: usize = 0;
    for j in 0..count {
        let digit = digit_of(literals[j], o);
        rank = 2 * rank + digit;
    }
    rank
}

// The ranks of all outputs, found once for all choices.
pub fn ranks_of(literals: [u8; Limits::OUTPUTS as usize], count: usize) -> [usize; Limits::OUTS]
    requires { count ≤ max_outputs }
    ensures { result ≡ tab max_outs (rank_by literals count) }
{
    let mut ranks = [0usize; Limits::OUTS];
    for o in 0..Limits::OUTS {
        ranks[o] = rank_of(literals, count, o);
    }
    ranks
}
