// Room for requests, answers and fields.
ghost use Rattle.std.specs.Prelude.{◌≡◌, length};

// The longest request, with the LF that ends it. No answer is longer: two digits for each byte of the longest buffer, or four for each word of two, are less.
pub const LINE: usize = 1310720;

// The most bytes of all fields of a request, which have two digits each.
pub const BYTES: usize = 655360;

// The most words of all fields of a request: two long lists, and the 32 latches of a step.
pub const WORDS: usize = 131104;

// Room that is made once. The `ensures` gives the length alone, which lending needs.
pub fn zeros<T: Copy + Default, const N: usize>() -> [T; N]
    ensures { length result ≡ N }
{
    [T::default(); N]
}

// Room that is lent for the bytes and words of a request, and for its answer.
#[derive(Drop)]
pub struct Room<'a> {
    pub bytes: &'a mut [u8],
    pub words: &'a mut [u16],
    pub out: &'a mut [u8],
}
