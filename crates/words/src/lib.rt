// Numbers as bytes, the highest first: one number of up to eight bytes, and many of eight.
#![tactic(auto)]

ghost use Rattle.std.specs.Prelude.{◌≡◌, ◌+◌, ◌*◌, ◌^◌, ◌≤◌, ◌<◌, length, take};
ghost use Rattle.words.specs.Words.{big, bigs, number_at, part_at, numbers_at};

// ---- reading

// The number that at most eight bytes spell.
pub fn number_of(bytes: &[u8]) -> u64
    requires { length bytes.now ≤ 8 }
    ensures { result ≡ number_at (length bytes.now) bytes.now 0 }
{
    let mut number = 0;
    for byte in bytes {
        number = number * 256 + u64::from(*byte);
    }
    number
}

// The number that the n bytes of b from `at` on spell; 0 where b ends before.
pub fn part(n: usize, b: &[u8], at: usize) -> u64
    requires { (n ≤ 8) × (at + n < 2 ^ 64) }
    ensures { result ≡ part_at n b.now at }
{
    b.get(at..at + n).map_or(0, number_of)
}

// Fills f with numbers of eight bytes each.
pub fn read_words(bytes: &[u8], f: &mut [u64])
    requires { 8 * length f.old ≤ length bytes.now }
    ensures { f.new ≡ numbers_at 8 (length f.old) bytes.now 0 }
{
    for (k, entry) in f.iter_mut().enumerate() {
        *entry = number_of(&bytes[8 * k..8 * k + 8]);
    }
}

// ---- writing

// Writes a number into all of at most eight bytes.
pub fn put_number(number: u64, bytes: &mut [u8])
    requires { length bytes.old ≤ 8 }
    ensures { bytes.new ≡ big (length bytes.old) number }
{
    let unused = 8 - bytes.len();
    bytes.copy_from_slice(&number.to_be_bytes()[unused..]);
}

// Writes number k of f in its eight bytes.
fn put_word(f: &[u64], k: usize, bytes: &mut [u8])
    requires { (k < length f.now) × (8 * k + 8 ≤ length bytes.old) × (take (8 * k) bytes.old ≡ bigs 8 (take k f.now)) }
    ensures { take (8 * (k + 1)) bytes.new ≡ bigs 8 (take (k + 1) f.now) }
{
    put_number(f[k], &mut bytes[8 * k..8 * k + 8]);
}

// Writes every number of f in eight bytes, two in a turn: one in a turn, the compiler turns the bytes of two at a time, which is slow
// where x86-64 has no instruction for it.
pub fn write_words(f: &[u64], bytes: &mut [u8])
    requires { length bytes.old ≡ 8 * length f.now }
    ensures { bytes.new ≡ bigs 8 f.now }
{
    let pairs = f.len() / 2;
    for k in 0..pairs {
        put_word(f, 2 * k, bytes);
        put_word(f, 2 * k + 1, bytes);
    }
    if 2 * pairs < f.len() {
        put_word(f, 2 * pairs, bytes);
    }
}
