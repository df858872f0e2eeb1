// Bytes put at a place of an output: bytes as they are, and numbers in decimal digits.
#![tactic(auto)]

ghost use Rattle.putting.specs.Digits.{digits};
ghost use Rattle.putting.specs.Put.{PutIfRoom};

// Copies bytes to a place of the output, if there is room for all of them; gives the place after them.
pub fn put_all(bytes: &mut [u8], at: usize, copied: &[u8]) -> usize
    ensures { PutIfRoom at bytes.old copied.now result bytes.new }
{
    if bytes.len() < at {
        return at;
    }
    if bytes.len() - at < copied.len() {
        return at;
    }
    // byte by byte: of `copy_from_slice` the compiler makes `memmove` here, and the calls for C need no more of a host than `memcpy` and `memset`
    for (i, byte) in copied.iter().enumerate() {
        bytes[at + i] = *byte;
    }
    at + copied.len()
}

// Writes a number in decimal digits to a place of the output, if there is room for them; gives the place after them.
pub fn put_number(bytes: &mut [u8], at: usize, n: u64) -> usize
    ensures { PutIfRoom at bytes.old (digits n) result bytes.new }
{
    let mut written = [0u8; 20];
    let mut first: usize = 19;
    let mut left = n;
    // digits from the last on; how many there are is seen by dividing
    while 10 <= left {
        written[first] = b'0' + (left % 10) as u8;
        left /= 10;
        first -= 1;
    }
    written[first] = b'0' + left as u8;
    put_all(bytes, at, &written[first..])
}
