// The parts of a line: each begins where the one before it ends, and nothing is stored past the end of the buffer.
// Buffer and place stay two parameters: as a struct's fields they would need the same bound, and a clause more in each method to keep the buffer the lent one.
ghost use Rattle.std.specs.Prelude.{[], ◌∷◌, ◌++◌, ◌≤◌};
ghost use Rattle.numerals.specs.Hex.{word_text};
ghost use Rattle.print.specs.Print.{decimal_text};
ghost use Rattle.print.specs.LawsPrint.{Wrote};

// One byte.
fn put_one(out: &mut [u8], at: usize, byte: u8) -> usize
    requires { at ≤ 1000 }
    ensures { Wrote at (byte ∷ []) out.old result out.new }
{
    numerals::hex::put(out, at, byte);
    at + 1
}

// A number in decimal, the most significant digit first.
fn put_decimal(out: &mut [u8], at: usize, n: u32) -> usize
    requires { at ≤ 900 }
    ensures { Wrote at (decimal_text n) out.old result out.new }
{
    if n < 10 {
        return put_one(out, at, b'0' + n as u8);
    }
    let last = put_decimal(out, at, n / 10);
    put_one(out, last, b'0' + (n % 10) as u8)
}

// A number in decimal, and the mark that ends it.
pub(crate) fn put_number(out: &mut [u8], at: usize, n: u32, mark: u8) -> usize
    requires { at ≤ 900 }
    ensures { Wrote at (decimal_text n ++ mark ∷ []) out.old result out.new }
{
    let end = put_decimal(out, at, n);
    put_one(out, end, mark)
}

// Four hex digits, and the mark that ends them.
pub(crate) fn put_hex(out: &mut [u8], at: usize, word: u16, mark: u8) -> usize
    requires { at ≤ 900 }
    ensures { Wrote at (word_text word ++ mark ∷ []) out.old result out.new }
{
    numerals::hex::put_word(out, at, word);
    put_one(out, at + 4, mark)
}
