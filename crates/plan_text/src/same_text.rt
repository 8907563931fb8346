//! Whether two texts of one length are the same, told by words of eight bytes. Where one of them is fixed, as the head
//! of a line is, a word costs a load and a comparison; `==` of arrays costs many times that.

ghost use Rattle.std.specs.Prelude.{◌≡◌, length, IsTrue};

/// Whether eight bytes are the same as eight others.
#[inline(always)]
fn is_same_word(left: &[u8; 8], right: &[u8; 8]) -> bool
    ensures { IsTrue result → left.now ≡ right.now }
{
    u64::from_le_bytes(*left) == u64::from_le_bytes(*right)
}

/// Whether four bytes are the same as four others.
#[inline(always)]
fn is_same_half_word(left: &[u8; 4], right: &[u8; 4]) -> bool
    ensures { IsTrue result → left.now ≡ right.now }
{
    u32::from_le_bytes(*left) == u32::from_le_bytes(*right)
}

/// Whether two texts of one length are the same, which is told byte by byte.
#[inline(always)]
fn has_same_bytes(left: &[u8], right: &[u8]) -> bool
    requires { length left.now ≡ length right.now }
    ensures { IsTrue result → left.now ≡ right.now }
{
    let mut left_rest = left;
    let mut right_rest = right;
    while let ([left_byte, left_others @ ..], [right_byte, right_others @ ..]) = (
        left_rest, right_rest,
    ) {
        if *left_byte != *right_byte {
            return false;
        }
        left_rest = left_others;
        right_rest = right_others;
    }
    true
}

/// Whether two texts of one length are the same, which is told by half a word and then byte by byte.
#[inline(always)]
fn has_same_end(left: &[u8], right: &[u8]) -> bool
    requires { length left.now ≡ length right.now }
    ensures { IsTrue result → left.now ≡ right.now }
{
    match (
        left.split_first_chunk::<4>(),
        right.split_first_chunk::<4>(),
    ) {
        (Some((left_half, left_rest)), Some((right_half, right_rest))) => {
            is_same_half_word(left_half, right_half) && has_same_bytes(left_rest, right_rest)
        },
        _ => has_same_bytes(left, right),
    }
}

/// Whether two texts of one length are the same, which is told by words of eight bytes.
#[inline(always)]
pub(crate) fn is_same_text(left: &[u8], right: &[u8]) -> bool
    requires { length left.now ≡ length right.now }
    ensures { IsTrue result → left.now ≡ right.now }
{
    let mut left_rest = left;
    let mut right_rest = right;
    while let (Some((left_word, left_others)), Some((right_word, right_others))) = (
        left_rest.split_first_chunk::<8>(),
        right_rest.split_first_chunk::<8>(),
    ) {
        if !is_same_word(left_word, right_word) {
            return false;
        }
        left_rest = left_others;
        right_rest = right_others;
    }
    has_same_end(left_rest, right_rest)
}
