//! Numbers in groups of seven bits, the lowest first, and whole numbers as such numbers.

ghost use Rattle.std.specs.Prelude.{◌≡◌, ◌≤◌, ◌++◌, length, drop};
ghost use Rattle.avro.specs.Avro.{zig, var};
ghost use Rattle.avro.specs.Reading.{Reads};

/// The zig-zag number of z.
pub(crate) fn zigzag(z: i64) -> u64
    ensures { result ≡ zig z }
{
    if z >= 0 {
        (z as u64) * 2
    } else {
        (-(z + 1)) as u64 * 2 + 1
    }
}

/// The whole number whose zig-zag number is n.
pub(crate) fn unzigzag(n: u64) -> i64
    ensures { zig result ≡ n }
{
    let half = (n / 2) as i64;
    if n % 2 == 0 { half } else { -half - 1 }
}

/// How many groups n has.
#[tactic(auto, using(crate::proofs::Vars::var_last, crate::proofs::Vars::var_next, crate::proofs::Vars::var_few))]
pub(crate) fn var_len(n: u64) -> usize
    ensures size { result ≡ length (var n) }
    ensures few { result ≤ 10 }
{
    if n < 128 { 1 } else { 1 + var_len(n / 128) }
}

/// Writes n to the start of `out`. Answers how many groups that are.
#[tactic(auto, using(crate::proofs::Vars::var_last, crate::proofs::Vars::var_next))]
pub(crate) fn write_var(out: &mut [u8], n: u64) -> usize
    requires { length (var n) ≤ length out.old }
    ensures size { result ≡ length (var n) }
    ensures after { out.new ≡ var n ++ drop (length (var n)) out.old }
{
    if n < 128 {
        out[0] = n as u8;
        return 1;
    }
    out[0] = (n % 128) as u8 + 128;
    1 + write_var(&mut out[1..], n / 128)
}

// Below this, a number and seven bits more fit 64 bits.
const LIMIT: u64 = 0x200_0000_0000_0000;

/// The number whose groups stand at the front of s, at most one more than `most`, and how many they are. Only the
/// shortest form is read.
pub(crate) fn read_groups(s: &[u8], most: u8) -> Option<(u64, usize)>
    requires { most ≤ 9 }
    ensures { Reads most s.now result }
{
    let (b, rest) = s.split_first()?;
    if *b < 128 {
        return Some((u64::from(*b), 1));
    }
    let (m, k) = read_groups(rest, most.checked_sub(1)?)?;
    if m == 0 || m >= LIMIT {
        return None;
    }
    Some((u64::from(*b - 128) + m * 128, k + 1))
}
