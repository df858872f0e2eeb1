// The calls for C that read and write numbers: include/vorruda.h declares them.
#![tactic(auto)]

ghost use Rattle.std.specs.Prelude.{◌≡◌, length};
ghost use Rattle.number.specs.Number.{number_at, read_result};
ghost use Rattle.number.specs.NumberList.{answer, output, write_result};
ghost use Rattle.number.specs.CallResult.{lent};

use lending::lend;
use number::WriteRefusal;

// One number at any place: 0, with the number and the next place, or 3, with the place.
#[unsafe(no_mangle)]
pub extern "C" fn vorruda_read_number(bytes: &[u8], at: usize, out: &mut [u64]) -> u32
    ensures code { result ≡ (read_result (number_at bytes.now at)).code }
    ensures values { out.new ≡ lent (read_result (number_at bytes.now at)).values out.old }
{
    match number::read_number(bytes, at) {
        Ok(numeral) => {
            lend(&[numeral.value as u64, numeral.next as u64], out);
            0
        }
        Err(unreadable) => {
            lend(&[unreadable.at as u64, 0], out);
            3
        }
    }
}

// A list of numbers to the first bytes: 0, with how many it filled; 11, with the index; or 12, with the length needed.
#[unsafe(no_mangle)]
pub extern "C" fn vorruda_write_numbers(numbers: &[u64], bytes: &mut [u8], out: &mut [u64]) -> u32
    ensures code { result ≡ (write_result (answer numbers.now (length bytes.old))).code }
    ensures bytes { bytes.new ≡ output (answer numbers.now (length bytes.old)) numbers.now bytes.old }
    ensures values { out.new ≡ lent (write_result (answer numbers.now (length bytes.old))).values out.old }
{
    match number::write_numbers(numbers, bytes) {
        Ok(filled) => {
            lend(&[filled as u64], out);
            0
        }
        Err(WriteRefusal::TooLarge(index)) => {
            lend(&[index as u64], out);
            11
        }
        Err(WriteRefusal::TooShort(needed)) => {
            lend(&[needed as u64], out);
            12
        }
    }
}
