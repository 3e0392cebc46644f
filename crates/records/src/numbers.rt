// Numbers of one, two, four and eight bytes, read at a place of a slice and put there.
ghost use Rattle.std.specs.Prelude.{◌≡◌, ℕ, ◌+◌, ◌≤◌, length};
ghost use Rattle.records.specs.Stores.{Laid};
ghost use Rattle.records.specs.Parts.{bytes_at};
ghost use Rattle.model.specs.Records.{bytes_of, number_at};

// A number of a fixed size: "numbers are little-endian".
// An impl for each type: the library's `to_le_bytes` is no trait's.
pub trait Number: Copy {
    // How many bytes it has.
    ghost size: { ℕ };

    ghost value: { Self → ℕ };

    // The number at a place, whose bytes past the end are 0.
    fn read(b: &[u8], at: usize) -> Self
        ensures { value result ≡ number_at b.now at size };

    // Puts it at a place; says the next one. There is room, here, below and in `writer`: a public call has looked, or asks for it.
    fn put(self, out: &mut [u8], at: usize) -> usize
        requires { at + size ≤ length out.old }
        ensures { Laid out.old at size (bytes_of size (value self)) result out.new };
}

impl Number for u8 {
    ghost size = { 1 };

    ghost value = { λ x. x };

    fn read(b: &[u8], at: usize) -> u8 {
        u8::from_le_bytes(bytes_at(b, at))
    }

    fn put(self, out: &mut [u8], at: usize) -> usize {
        put_bytes(out, at, self.to_le_bytes())
    }
}

impl Number for u16 {
    ghost size = { 2 };

    ghost value = { λ x. x };

    fn read(b: &[u8], at: usize) -> u16 {
        u16::from_le_bytes(bytes_at(b, at))
    }

    fn put(self, out: &mut [u8], at: usize) -> usize {
        put_bytes(out, at, self.to_le_bytes())
    }
}

impl Number for u32 {
    ghost size = { 4 };

    ghost value = { λ x. x };

    fn read(b: &[u8], at: usize) -> u32 {
        u32::from_le_bytes(bytes_at(b, at))
    }

    fn put(self, out: &mut [u8], at: usize) -> usize {
        put_bytes(out, at, self.to_le_bytes())
    }
}

impl Number for u64 {
    ghost size = { 8 };

    ghost value = { λ x. x };

    fn read(b: &[u8], at: usize) -> u64 {
        u64::from_le_bytes(bytes_at(b, at))
    }

    fn put(self, out: &mut [u8], at: usize) -> usize {
        put_bytes(out, at, self.to_le_bytes())
    }
}

// The N bytes at a place; 0 for those past the end.
fn bytes_at<const N: usize>(b: &[u8], at: usize) -> [u8; N]
    ensures { result ≡ bytes_at b.now at N }
{
    let mut bytes = [0; N];
    let rest = &b[at.min(b.len())..];
    let n = rest.len().min(N);
    bytes[..n].copy_from_slice(&rest[..n]);
    bytes
}

// N bytes at a place; says the next one.
fn put_bytes<const N: usize>(out: &mut [u8], at: usize, bytes: [u8; N]) -> usize
    requires { at + N ≤ length out.old }
    ensures { Laid out.old at N bytes.entry result out.new }
{
    let next = at + N;
    out[at..next].copy_from_slice(&bytes);
    next
}
