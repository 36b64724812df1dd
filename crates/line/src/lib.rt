// The line that the program `lossless_line` reads, and what it writes for it.
#![tactic(auto)]

ghost use Rattle.std.specs.Prelude.{◌≡◌, ◌==◌, ◌+◌, ◌≤◌, cond, [], ◌++◌, length, position, Some, None, IfSome, IfNone};
ghost use Rattle.lossless.specs.Answer.{Refused, Lossy};
ghost use Rattle.lossless.specs.Lossless.{answer_of};
ghost use Rattle.line.specs.Line as Line;
ghost use Rattle.line.specs.Line.{before, after, is_letter, are_letters, is_side};
ghost use Rattle.line.specs.Line.{face_of_letter, faces_of, decimal_of, spaced, worded, answer_to, reply_to};
ghost use Rattle.line.specs.Text.{text_of, items};
ghost use Rattle.arrayvec.specs.ArrayVec.{array_vec_len};

use arrayvec::ArrayVec;
use lossless::Answer;
use settings::{Face, Refusal, Settings};

// The longest line that can be readable.
pub const MOST_BYTES: usize = 64;

// The longest side.
const MOST_DIGITS: usize = 5;

// Room for any answer.
const ROOM: usize = 32;

// What is written: the first `count` bytes. The others are 0.
#[derive(Clone, Copy, Debug, PartialEq, Eq)]
pub struct Text {
    pub bytes: [u8; ROOM],
    pub count: usize,
}

// The same while it is put together.
type Draft = ArrayVec<u8, ROOM>;

impl Text {
    fn of(draft: &Draft) -> Text
        ensures { result ≡ text_of draft.now.items }
    {
        let mut bytes = [0; ROOM];
        bytes[..draft.len()].copy_from_slice(draft.as_slice());
        Text {
            bytes,
            count: draft.len(),
        }
    }

    // The bytes that are written.
    pub fn as_slice(&self) -> &[u8]
        ensures { result.now ≡ items self.now }
    {
        &self.bytes[..self.count.min(ROOM)]
    }
}

// ---- what a line asks, if it is readable

// Where the first `mark` stands.
fn place_of(mark: u8, s: &[u8]) -> Option<usize>
    ensures { result ≡ position (λ b. b == mark) s.now }
{
    s.iter().position(|b| *b == mark)
}

// What stands before the first `mark` and what stands after it, where there is one.
#[tactic(auto, using(crate::proofs::Words::first_part, crate::proofs::Words::second_part, crate::proofs::Words::unparted))]
fn split_once(s: &[u8], mark: u8) -> Option<(&[u8], &[u8])>
    ensures parts { IfSome result (λ p. (p.0.now ≡ before mark s.now) × (p.1.now ≡ after mark s.now)) }
    ensures whole { IfNone result ((before mark s.now ≡ s.now) × (after mark s.now ≡ [])) }
{
    let k = place_of(mark, s)?;
    Some((&s[..k], &s[k + 1..]))
}

#[tactic(auto, unfolding(crate::specs::Line::face_of_letter))]
fn face(letter: u8) -> Option<Face>
    ensures { result ≡ cond (is_letter letter) (Some (face_of_letter letter)) None }
{
    match letter {
        b'P' => Some(Face::Periodic),
        b'N' => Some(Face::NoSlip),
        b'S' => Some(Face::Symmetry),
        _ => None,
    }
}

// The faces that four letters name.
#[tactic(auto, unfolding(crate::specs::Line::are_letters))]
fn faces(letters: &[u8]) -> Option<[Face; 4]>
    ensures { result ≡ cond (are_letters letters.now) (Some (faces_of letters.now)) None }
{
    let [a, b, c, d] = letters else {
        return None;
    };
    Some([face(*a)?, face(*b)?, face(*c)?, face(*d)?])
}

// The number that a side's digits say.
#[tactic(auto, using(crate::proofs::Sides::side_steps), unfolding(crate::specs::Line::is_side))]
fn side(digits: &[u8]) -> Option<usize>
    ensures { result ≡ cond (is_side digits.now) (Some (decimal_of digits.now)) None }
{
    if digits.is_empty() || MOST_DIGITS < digits.len() {
        return None;
    }
    let mut n = 0;
    for b in digits {
        if !b.is_ascii_digit() {
            return None;
        }
        n = n * 10 + usize::from(*b - b'0');
    }
    Some(n)
}

// What a readable line asks.
#[tactic(auto, unfolding(crate::specs::Line::readable, crate::specs::Line::are_sides, crate::specs::Line::is_side))]
fn asked(line: &[u8]) -> Option<Settings>
    ensures { result ≡ cond (Line.readable line.now) (Some (Line.asked line.now)) None }
{
    if MOST_BYTES < line.len() {
        return None;
    }
    let (letters, sides) = split_once(line, b' ')?;
    let (nx, ny) = split_once(sides, b' ')?;
    let [x_min, x_max, y_min, y_max] = faces(letters)?;
    Some(Settings {
        nx: side(nx)?,
        ny: side(ny)?,
        nu: 0.0,
        fx: 0.0,
        fy: 0.0,
        collision: cell::Collision::Bgk,
        x_min,
        x_max,
        y_min,
        y_max,
        floor: 0.0,
    })
}

// ---- what is written for it

fn put(bytes: &[u8], text: &mut Draft)
    requires { array_vec_len text.old + length bytes.now ≤ ROOM }
    ensures { text.new.items ≡ text.old.items ++ bytes.now }
{
    text.try_extend_from_slice(bytes).unwrap();
}

// Puts a space and n in decimal.
fn put_number(n: usize, text: &mut Draft)
    requires { array_vec_len text.old + length (spaced n) ≤ ROOM }
    ensures { text.new.items ≡ text.old.items ++ spaced n }
{
    let mut digits = [0u8; 20];
    let k = io::decimal(n as u64, &mut digits);
    put(b" ", text);
    put(&digits[..k], text);
}

#[tactic(auto, unfolding(crate::specs::Line::worded))]
fn refused(number: u32) -> Draft
    requires { length (worded (Refused number)) ≤ ROOM }
    ensures { result.items ≡ worded (Refused number) }
{
    let mut text = Draft::new();
    put(b"refused", &mut text);
    put_number(number as usize, &mut text);
    put(b"\n", &mut text);
    text
}

#[tactic(auto, unfolding(crate::specs::Line::worded))]
fn lossy(x: usize, y: usize, i: usize) -> Draft
    requires { length (worded (Lossy x y i)) ≤ ROOM }
    ensures { result.items ≡ worded (Lossy x y i) }
{
    let mut text = Draft::new();
    put(b"lossy", &mut text);
    put_number(x, &mut text);
    put_number(y, &mut text);
    put_number(i, &mut text);
    put(b"\n", &mut text);
    text
}

fn whole(words: &[u8]) -> Draft
    requires { length words.now ≤ ROOM }
    ensures { result.items ≡ words.now }
{
    let mut text = Draft::new();
    put(words, &mut text);
    text
}

#[tactic(auto, unfolding(crate::specs::Line::worded))]
fn worded(answer: Result<Answer, Refusal>) -> Draft
    requires { length (worded (answer_of answer)) ≤ ROOM }
    ensures { result.items ≡ worded (answer_of answer) }
{
    match answer {
        Ok(Answer::Lossless) => whole(b"lossless\n"),
        Ok(Answer::Lossy(x, y, i)) => lossy(x, y, i),
        Err(why) => refused(why.number()),
    }
}

// What is written for a line.
fn answer_to(line: &[u8]) -> Draft
    ensures { result.items ≡ answer_to line.now }
{
    match asked(line) {
        Some(s) => worded(lossless::lossless(s)),
        None => whole(b"unreadable\n"),
    }
}

// The same for the bytes that were read: their line ends at the first newline, or with them.
fn answered(read: &[u8]) -> Draft
    ensures { result.items ≡ reply_to read.now }
{
    match split_once(read, b'\n') {
        Some((line, _)) => answer_to(line),
        None => answer_to(read),
    }
}

// What is written for the bytes that were read.
#[tactic(auto, using(crate::proofs::Words::items_of))]
pub fn reply(read: &[u8]) -> Text
    ensures text { result ≡ text_of (reply_to read.now) }
    ensures items { items result ≡ reply_to read.now }
{
    Text::of(&answered(read))
}
