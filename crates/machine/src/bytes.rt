// Numbers in bytes.
ghost use Rattle.std.specs.Prelude.{◌≡◌, ◌≤◌, length, if◌then◌else◌, nat_le};
ghost use Rattle.machine.specs.Paper.{little};

// What a byte counts for in the number of those before it.
const BASE: u64 = 256;

// Bytes in a number of 64 bits.
const WIDEST: usize = 8;

fn gathered(bytes: &[u8]) -> u64
    requires { length bytes.now ≤ 8 }
    ensures { result ≡ little bytes.now }
{
    let mut number = 0;
    for n in (0..bytes.len()).rev() {
        number = u64::from(bytes[n]) + BASE * number;
    }
    number
}

// The number that at most 8 bytes make, low byte first; 0 where there are more.
pub fn little_of(bytes: &[u8]) -> u64
    ensures { result ≡ (if nat_le (length bytes.now) 8 then little bytes.now else 0) }
{
    if WIDEST < bytes.len() {
        0
    } else {
        gathered(bytes)
    }
}
