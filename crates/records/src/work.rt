// Work memory that is lent to a maker.
ghost use Rattle.std.specs.Prelude.{◌≡◌, List};
ghost use Rattle.records.specs.Meaning.Work.{Slice, long_enough};
ghost use Rattle.records.specs.Laws.Work.{exactly};

// Whether each of N slices is as long as is asked for.
pub fn long_enough<const N: usize>(asked: &[usize; N], lent: &[usize; N]) -> bool
    ensures { (work : List Slice) → exactly work ≡ asked.now → result ≡ long_enough work lent.now }
{
    for k in 0..N {
        if lent[k] < asked[k] {
            return false;
        }
    }
    true
}
