// Reading an image: the checks 20 to 27 in 01's order, and the head of an image that none refuses.
ghost use Rattle.std.specs.Prelude.{◌≡◌, ◌+◌, ◌*◌, ◌≤◌, ◌<◌, List, ℕ, length};
ghost use Rattle.automata.specs.Image.{Valid, symbols_of, row_count_of, offset_of, size_of, pairs_hold, row_holds, rows_hold, check_image};
ghost use Rattle.automata.specs.Image.{outside as is_outside};
ghost use Rattle.automata.specs.Answers.{ReadAs, checked_number, read_image, head_read_from};

use crate::bytes::{read2, read4, read8};
use crate::refusal::Refusal;
use std::marker::Model;

// A symbol's number.
#[derive(Clone, Copy, PartialEq, Eq)]
pub struct Symbol(pub u8);

// What an image says before its rows: n, k, m, I and F.
#[derive(Clone, Copy)]
pub struct Head {
    pub states: u8,
    pub symbols: u8,
    pub rows: u16,
    pub initial: u64,
    pub finals: u64,
}

// An image that no check refuses: the bytes that are lent, which a contract sees, and what they say before the rows.
#[derive(Clone, Drop)]
pub struct Image<'a> {
    bytes: &'a [u8],
    head: Head,
}

impl<'a> Model for Image<'a> {
    ghost Value = { List ℕ };

    ghost view = { λ image. image.bytes.now };

    ghost invariant = { λ image. ReadAs image.bytes.now image.head };
}

impl<'a> Image<'a> {
    // The image of bytes that are known to be valid, which is none that can be refused.
    #[tactic(auto, using(crate::proofs::Reading::head_in))]
    pub fn of_valid(bytes: &'a [u8]) -> Image<'a>
        requires { Valid bytes.now }
        ensures { result ≡ bytes.now }
    {
        let head = Head {
            states: bytes[0],
            symbols: bytes[1],
            rows: read2(bytes, 2),
            initial: read8(bytes, 4),
            finals: read8(bytes, 12),
        };
        Image { bytes, head }
    }

    // What it says before its rows.
    pub fn head(&self) -> Head
        ensures { ReadAs self.now result }
    {
        self.head
    }

    // The bytes.
    pub(crate) fn bytes(&self) -> &'a [u8]
        ensures { (result.now ≡ self.now) × Valid self.now }
    {
        self.bytes
    }
}

// Whether the number is 0 or above 64.
fn outside(number: u8) -> bool
    ensures { result ≡ is_outside number }
{
    number == 0 || 64 < number
}

// Where the rows of the symbol begin, by its pair.
pub(crate) fn offset_of(image: &[u8], symbol: Symbol) -> usize
    requires { 28 + 8 * symbol.0 ≤ length image.now }
    ensures { (result ≡ offset_of image.now symbol.0) × (result < 4294967296) }
{
    // as Rust, std has no `usize::from` of 32 bits
    read4(image, 20 + 8 * usize::from(symbol.0)) as usize
}

// How many bytes they take, by its pair.
pub(crate) fn size_of(image: &[u8], symbol: Symbol) -> usize
    requires { 28 + 8 * symbol.0 ≤ length image.now }
    ensures { (result ≡ size_of image.now symbol.0) × (result < 4294967296) }
{
    read4(image, 24 + 8 * usize::from(symbol.0)) as usize
}

// Whether each pair keeps the span rule and the last span ends at the image's end.
fn pairs_hold(image: &[u8]) -> bool
    requires { 20 + 8 * symbols_of image.now ≤ length image.now }
    ensures { result ≡ pairs_hold image.now }
{
    let symbols = image[1];
    let mut start = 20 + 8 * usize::from(symbols);
    for s in 0..symbols {
        let symbol = Symbol(s);
        let offset = offset_of(image, symbol);
        let size = size_of(image, symbol);
        if offset != start {
            return false;
        }
        if size % 9 != 0 {
            return false;
        }
        start = offset + size;
    }
    start == image.len()
}

// Whether row i has a state below n and no bit of its case at n or above.
fn row_holds(image: &[u8], i: usize) -> bool
    requires { 29 + 8 * symbols_of image.now + 9 * i ≤ length image.now }
    ensures { result ≡ row_holds image.now i }
{
    let states = image[0];
    let at = 20 + 8 * usize::from(image[1]) + 9 * i;
    image[at] < states && masks::within(states, read8(image, at + 1))
}

// Whether each of the m rows does.
fn rows_hold(image: &[u8]) -> bool
    requires { 20 + 8 * symbols_of image.now + 9 * row_count_of image.now ≤ length image.now }
    ensures { result ≡ rows_hold image.now }
{
    let rows = usize::from(read2(image, 2));
    (0..rows).all(|i| row_holds(image, i))
}

// Nothing, or the first check that refuses the image.
fn check_image(image: &[u8]) -> Result<(), Refusal>
    ensures { checked_number result ≡ check_image image.now }
{
    if image.len() < 20 {
        return Err(Refusal::ShortImage);
    }
    let states = image[0];
    if outside(states) {
        return Err(Refusal::StateCount);
    }
    let symbols = image[1];
    if outside(symbols) {
        return Err(Refusal::SymbolCount);
    }
    let rows = read2(image, 2);
    if 4096 < rows {
        return Err(Refusal::RowCount);
    }
    if image.len() != 20 + 8 * usize::from(symbols) + 9 * usize::from(rows) {
        return Err(Refusal::ImageLength);
    }
    if !masks::within(states, read8(image, 4)) {
        return Err(Refusal::StateSet);
    }
    if !masks::within(states, read8(image, 12)) {
        return Err(Refusal::StateSet);
    }
    if !pairs_hold(image) {
        return Err(Refusal::Pair);
    }
    if !rows_hold(image) {
        return Err(Refusal::Row);
    }
    Ok(())
}

// An image that no check refuses, else the first that does.
pub fn read_image<'a>(bytes: &'a [u8]) -> Result<Image<'a>, Refusal>
    ensures { result ≡ read_image bytes.now }
{
    check_image(bytes)?;
    Ok(Image::of_valid(bytes))
}

// What the bytes say before their rows, if no check refuses them, else the first that does: a value that can be copied, and kept without the bytes.
pub fn read_head(bytes: &[u8]) -> Result<Head, Refusal>
    ensures { result ≡ head_read_from (read_image bytes.now) }
{
    Ok(read_image(bytes)?.head())
}
