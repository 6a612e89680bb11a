// How many bytes of each kind stand first.

ghost use Rattle.std.specs.Prelude.{◌≡◌, ◌+◌, ◌<◌, ◌≤◌, length, drop, IfSome, IfNone};
ghost use Rattle.hy_token.specs.Lengths.{is_space, separates, is_within_line, piece_len, begins_word, small, blank_len, digits_len, text_rest_len};
ghost use Rattle.hy_token.specs.Letters.{word_on};
ghost use Rattle.std.specs.List.{prefix_len};

fn is_space(byte: u8) -> bool
    ensures { result ≡ is_space byte }
{
    byte == b' ' || byte == b'\t' || byte == b'\r' || byte == b'\n'
}

/// What a word begins with: it goes on with that, and it is no digit.
pub fn begins_word(byte: u8) -> bool
    ensures { result ≡ begins_word byte }
{
    small(byte) > b'9'
}

/// What spaces and comments begin with.
fn separates(byte: u8) -> bool
    ensures { result ≡ separates byte }
{
    is_space(byte) || byte == b'-'
}

/// The bytes of an integer.
#[tactic(auto, using(crate::proofs::RunSteps::run_steps))]
pub fn digits_len(bytes: &[u8]) -> usize
    ensures { result ≡ digits_len bytes.now }
{
    let mut len = 0;
    while len < bytes.len() && bytes[len].is_ascii_digit() {
        len += 1;
    }
    len
}

/// The bytes before the next line feed or the end.
#[tactic(auto, using(crate::proofs::RunSteps::run_steps))]
fn line_len(bytes: &[u8]) -> usize
    ensures { result ≡ prefix_len is_within_line bytes.now }
{
    let mut len = 0;
    while len < bytes.len() && bytes[len] != b'\n' {
        len += 1;
    }
    len
}

/// The space or the comment that stands first, a comment up to its line feed.
fn piece_len(bytes: &[u8]) -> usize
    ensures { result ≡ piece_len bytes.now }
{
    let Some(&first) = bytes.first() else {
        return 0;
    };
    if is_space(first) {
        1
    } else if first == b'-' && bytes.starts_with(b"--") {
        line_len(bytes)
    } else {
        0
    }
}

/// Spaces and comments. Most tokens stand behind one space or none.
#[tactic(auto, using(crate::proofs::Blanks::one_space, crate::proofs::Blanks::no_space))]
pub fn blank_len(bytes: &[u8]) -> usize
    ensures value { result ≡ blank_len bytes.now }
    ensures in_range { result ≤ length bytes.now }
{
    match bytes {
        [b' ', second, ..] if !separates(*second) => 1,
        [first, ..] if !separates(*first) => 0,
        _ => pieces_len(bytes),
    }
}

/// Spaces and comments, piece by piece.
#[inline(never)]
#[tactic(auto, using(crate::proofs::Blanks::blank_steps), unfolding(crate::specs::Lengths::blank_len))]
fn pieces_len(bytes: &[u8]) -> usize
    ensures value { result ≡ blank_len bytes.now }
    ensures in_range { result ≤ length bytes.now }
{
    let mut len = 0;
    loop {
        let step = piece_len(&bytes[len..]);
        if step == 0 {
            return len;
        }
        len += step;
    }
}

/// What follows the quote that opens a text, with the quote that closes it.
pub fn text_rest_len(bytes: &[u8]) -> Option<usize>
    ensures value { result ≡ text_rest_len bytes.now }
    ensures in_range { IfSome result (λ len. len ≤ length bytes.now) }
{
    let mut len = 0;
    while len < bytes.len() {
        if bytes[len] < b' ' {
            return None;
        }
        if bytes[len] != b'\'' {
            len += 1;
        } else if len + 1 < bytes.len() && bytes[len + 1] == b'\'' {
            len += 2;
        } else {
            return Some(len + 1);
        }
    }
    None
}

// For each byte that a word goes on with the byte in lower case, and else 0.
const SMALL: [u8; 256] = [
    0, 0, 0, 0, 0, 0, 0, 0, 0, 0, 0, 0, 0, 0, 0, 0, 0, 0, 0, 0, 0, 0, 0, 0, 0, 0, 0, 0, 0, 0, 0, 0,
    0, 0, 0, 0, 0, 0, 0, 0, 0, 0, 0, 0, 0, 0, 0, 0, 48, 49, 50, 51, 52, 53, 54, 55, 56, 57, 0, 0,
    0, 0, 0, 0, 0, 97, 98, 99, 100, 101, 102, 103, 104, 105, 106, 107, 108, 109, 110, 111, 112,
    113, 114, 115, 116, 117, 118, 119, 120, 121, 122, 0, 0, 0, 0, 95, 0, 97, 98, 99, 100, 101, 102,
    103, 104, 105, 106, 107, 108, 109, 110, 111, 112, 113, 114, 115, 116, 117, 118, 119, 120, 121,
    122, 0, 0, 0, 0, 0, 0, 0, 0, 0, 0, 0, 0, 0, 0, 0, 0, 0, 0, 0, 0, 0, 0, 0, 0, 0, 0, 0, 0, 0, 0,
    0, 0, 0, 0, 0, 0, 0, 0, 0, 0, 0, 0, 0, 0, 0, 0, 0, 0, 0, 0, 0, 0, 0, 0, 0, 0, 0, 0, 0, 0, 0, 0,
    0, 0, 0, 0, 0, 0, 0, 0, 0, 0, 0, 0, 0, 0, 0, 0, 0, 0, 0, 0, 0, 0, 0, 0, 0, 0, 0, 0, 0, 0, 0, 0,
    0, 0, 0, 0, 0, 0, 0, 0, 0, 0, 0, 0, 0, 0, 0, 0, 0, 0, 0, 0, 0, 0, 0, 0, 0, 0, 0, 0, 0, 0, 0, 0,
    0, 0, 0, 0, 0, 0, 0,
];

/// As many letters are told by a number of 64 bits.
pub const MOST_LETTERS: usize = 8;

/// A byte that a word goes on with in lower case, and 0 for any other.
fn small(byte: u8) -> u8
    ensures { result ≡ small byte }
{
    SMALL[byte as usize]
}

/// The number of letters that the byte at this place adds one to, if a word goes on with it.
#[inline(always)]
fn more(bytes: &[u8], at: usize, letters: u64) -> Option<u64>
    requires { at < length bytes.now }
    ensures some { IfSome result (λ more. word_on (at + 1) more (drop (at + 1) bytes.now) ≡ word_on at letters (drop at bytes.now)) }
    ensures none { IfNone result (word_on at letters (drop at bytes.now) ≡ (at, letters)) }
{
    let small = small(bytes[at]);
    if small == 0 {
        return None;
    }
    Some(letters.wrapping_mul(256).wrapping_add(u64::from(small)))
}

/// A word's bytes, and the number that they are in lower case, the first weighing most: up to eight bytes are told by it.
/// Most words have fewer: the length of each of them is known where it ends, and so is which reserved words have it.
#[inline(always)]
pub fn word_with_letters(bytes: &[u8]) -> (usize, u64)
    ensures { result ≡ word_on 0 0 bytes.now }
{
    if bytes.len() < MOST_LETTERS {
        return longer_word(bytes, 0, 0);
    }
    let Some(one) = more(bytes, 0, 0) else {
        return (0, 0);
    };
    let Some(two) = more(bytes, 1, one) else {
        return (1, one);
    };
    let Some(three) = more(bytes, 2, two) else {
        return (2, two);
    };
    let Some(four) = more(bytes, 3, three) else {
        return (3, three);
    };
    let Some(five) = more(bytes, 4, four) else {
        return (4, four);
    };
    let Some(six) = more(bytes, 5, five) else {
        return (5, five);
    };
    let Some(seven) = more(bytes, 6, six) else {
        return (6, six);
    };
    let Some(eight) = more(bytes, 7, seven) else {
        return (7, seven);
    };
    longer_word(bytes, MOST_LETTERS, eight)
}

/// A word of which so many bytes are seen, which are this number, with what goes on with it.
#[inline(never)]
fn longer_word(bytes: &[u8], seen: usize, letters: u64) -> (usize, u64)
    requires { seen ≤ length bytes.now }
    ensures { result ≡ word_on seen letters (drop seen bytes.now) }
{
    let mut len = seen;
    let mut letters = letters;
    while len < bytes.len() {
        let Some(letters_on) = more(bytes, len, letters) else {
            return (len, letters);
        };
        letters = letters_on;
        len += 1;
    }
    (len, letters)
}
