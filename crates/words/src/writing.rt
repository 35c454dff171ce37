//! Words at the start of lent memory.

ghost use Rattle.std.specs.Prelude.{◌++◌};
ghost use Rattle.queue.specs.Fronts.{Writes};

/// Writes the words of the head and a word for each byte, or nothing where they are too many. Answers how many they are.
pub(crate) fn write_words(out: &mut [u64], head: &[u64], bytes: &[u8]) -> Option<usize>
    ensures { Writes (λ n. n) (head.now ++ bytes.now) result out.old out.new }
{
    let n = head.len() + bytes.len();
    if n > out.len() {
        return None;
    }
    out[..head.len()].copy_from_slice(head);

    // By index: tried with `out[..].iter_mut().zip(bytes)`, after which a proof knows no element of `out`.
    for (i, b) in bytes.iter().enumerate() {
        out[head.len() + i] = u64::from(*b);
    }
    Some(n)
}
