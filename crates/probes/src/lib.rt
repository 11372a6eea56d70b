// What the tests ask of functions that the C interface does not have. include/afa.h does not declare it, and the library's archive does not hold it.
#![tactic(auto)]

ghost use Rattle.std.specs.Prelude.{◌≡◌};
ghost use Rattle.automata.specs.Answers.{read_image};
ghost use Rattle.probes.specs.Walks.{walk_number, walked_after};

use automata::backward::backward;
use automata::image::{Symbol, read_image};
use automata::refusal::Refusal;

// 0, with the backward set of the case by the symbol and the rows walked for it in `walked`; or the number under which the image is refused, or 32 where
// the symbol is k or above, and `walked` as it was.
#[unsafe(no_mangle)]
pub extern "C" fn afa_walk(image: &[u8], symbol: u64, case: u64, walked: &mut [u64; 2]) -> u64
    ensures number { result ≡ walk_number symbol (read_image image.now) }
    ensures values { walked.new ≡ walked_after walked.old symbol case (read_image image.now) }
{
    match read_image(image) {
        Err(refusal) => u64::from(refusal),
        Ok(image) => {
            if u64::from(image.head().symbols) <= symbol {
                return u64::from(Refusal::UnknownSymbol);
            }
            // the test above proves that the symbol fits; as Rust, std has no `u64::from` of a usize
            let found = backward(&image, Symbol(symbol as u8), case);
            *walked = [found.set, found.rows as u64];
            0
        }
    }
}
