//! Ways to write items as numbers.

ghost use Rattle.std.specs.Prelude.{◌≡◌, ℕ, List, length, map};
ghost use Rattle.carrier.specs.Items.{Datum, truth, whole, single, double, Laws};
ghost use Rattle.carrier.specs.Meaning.{datum};
ghost use Rattle.queue.specs.Fronts.{Finds, FindsFixed, FindsRun, Writes};
ghost use Rattle.queue.specs.Sampled.{Samples, no_samples};

use carrier::{Item, Kind};

/// A way to write items as numbers. What it finds stands at the front of a row; beside it stands how many numbers it is.
pub trait Coding {
    /// What the memory holds: bytes, or words.
    type Number: Copy;

    // The number that an element of the memory is.
    ghost number: { Self.Number → ℕ };

    ghost code: { Datum → List ℕ };

    ghost laws: { Laws code };

    // What published samples say of the code, which holds. An impl need not give any.
    ghost samples: { Samples } = { no_samples };

    /// The length of the item's code.
    fn len(item: Item<&[u8]>) -> usize
        ensures { result ≡ length (code (datum item.entry)) };

    /// Writes the item's code to the start of `out`, or nothing where it is too long. Answers its length.
    fn write(out: &mut [Self::Number], item: Item<&[u8]>) -> Option<usize>
        ensures { Writes number (code (datum item.entry)) result out.old out.new };

    // A call for each plain kind: one for all would need a trait over the four types, and its impls for each coding.
    fn find_truth(row: &[Self::Number]) -> Option<(bool, usize)>
        ensures { Finds code Kind.Truth truth (map number row.now) result };

    fn find_whole(row: &[Self::Number]) -> Option<(i64, usize)>
        ensures { Finds code Kind.Whole whole (map number row.now) result };

    fn find_single(row: &[Self::Number]) -> Option<(u32, usize)>
        ensures { Finds code Kind.Single single (map number row.now) result };

    fn find_double(row: &[Self::Number]) -> Option<(u64, usize)>
        ensures { Finds code Kind.Double double (map number row.now) result };

    /// Copies a fixed of as many bytes as `out` has, and answers how many numbers it is.
    fn copy_fixed(row: &[Self::Number], out: &mut [u8]) -> Option<usize>
        ensures { FindsFixed code (map number row.now) result out.old out.new };

    /// Copies a run of at most `most` bytes, or at most as many as `out` has where that is less. Answers how many bytes
    /// it has, and how many numbers it is.
    fn copy_run(row: &[Self::Number], most: usize, out: &mut [u8]) -> Option<(usize, usize)>
        ensures { FindsRun code (map number row.now) most result out.old out.new };
}
