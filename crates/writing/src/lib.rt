// Bytes into a lent room: one byte, a number in decimal, digit by digit, most significant first, or a line of numbers. A byte that has no place in the room is
// not written, so a room without places serves to count.
#![tactic(auto)]

ghost use Rattle.std.specs.Prelude.{◌≡◌, ℕ, [], ◌∷◌, ◌+◌, ◌*◌, ◌^◌, ◌≤◌, ◌<◌, length, map};
ghost use Rattle.std.proofs.lemmas.List.Edits.{sets};
ghost use Rattle.writing.specs.Decimal.{digits};
ghost use Rattle.writing.specs.Lines.{newline, numbers_line};
ghost use Rattle.writing.specs.Putting.{next_number, Puts};

// A number that a line can be made of.
pub trait Number: Copy {
    ghost value: { Self → ℕ };

    fn value(self) -> u64
        ensures { result ≡ value self };
}

impl Number for u64 {
    ghost value = { λ number. number };

    fn value(self) -> u64 {
        self
    }
}

impl Number for u8 {
    ghost value = { λ number. number };

    fn value(self) -> u64 {
        u64::from(self)
    }
}

// The byte at a place of the room; behind the room nothing changes.
pub fn put_byte(room: &mut [u8], at: usize, byte: u8)
    ensures { room.new ≡ sets room.old at (byte ∷ []) }
{
    if at < room.len() {
        room[at] = byte;
    }
}

// The number's digits from a place on; answers the place behind them. A number has at most 20. By hand, and over the number divided by ten, as 01 names the
// form: std's writers end where a slice ends, and these digits are counted behind the room too.
pub fn put_number(room: &mut [u8], at: usize, number: u64) -> usize
    requires { at + 20 < 2 ^ 64 }
    ensures place { result ≡ at + length (digits number) }
    ensures near { result ≤ at + 20 }
    ensures bytes { room.new ≡ sets room.old at (digits number) }
{
    if number < 10 {
        // one digit, where `try_from` would have an error to handle
        put_byte(room, at, 48 + number as u8);
        return at + 1;
    }
    let next = put_number(room, at, number / 10);
    put_byte(room, next, 48 + (number % 10) as u8);
    next + 1
}

// The number of a place in its line, with a space before it unless it is the first; answers the place behind it.
fn put_next(room: &mut [u8], at: usize, place: usize, number: u64) -> usize
    requires { at < 2 ^ 63 }
    ensures place { result ≡ at + length (next_number place number) }
    ensures near { result ≤ at + 21 }
    ensures bytes { room.new ≡ sets room.old at (next_number place number) }
{
    if place == 0 {
        return put_number(room, at, number);
    }
    put_byte(room, at, 32);
    put_number(room, at + 1, number)
}

// A newline, unless the limit is passed; answers the place behind it.
fn put_newline(room: &mut [u8], at: usize, limit: usize) -> usize
    requires { limit < 2 ^ 63 }
    ensures near { result ≤ at + 1 }
    ensures bytes { Puts (newline ∷ []) at limit result room.old room.new }
{
    if limit < at {
        return at;
    }
    put_byte(room, at, 10);
    at + 1
}

// The numbers in decimal with one space between, and a newline, from a place on; answers the place behind them, at most 21 bytes on for each number and one
// more. It stops once the limit is passed.
pub fn put_line<N: Number>(room: &mut [u8], start: usize, limit: usize, numbers: &[N]) -> usize
    requires { limit < 2 ^ 63 }
    ensures near { result ≤ start + 21 * length numbers.now + 1 }
    ensures bytes { Puts (numbers_line (map N.value numbers.now)) start limit result room.old room.new }
{
    let mut end = start;
    for (i, number) in numbers.iter().enumerate() {
        if limit < end {
            return end;
        }
        end = put_next(room, end, i, number.value());
    }
    put_newline(room, end, limit)
}
