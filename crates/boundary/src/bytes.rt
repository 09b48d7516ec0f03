// Numbers in a buffer, low byte first.
ghost use Rattle.std.specs.Prelude.{◌≡◌, ℕ, ◌+◌, ◌%◌, ◌^◌, ◌≤◌, length};
ghost use Rattle.layout.specs.Put.{put};
ghost use Rattle.layout.specs.Bytes.{bytes_of, number_at};

// What stands in a buffer as the bytes of its number, as many as its type has. An index and not a part of the buffer, since the contract tells what is left of all of it.
pub(crate) trait Number: Copy + Default {
    const WIDTH: usize;

    ghost WIDTH: { ℕ };

    ghost value: { Self → ℕ };

    fn put(self, out: &mut [u8], at: usize)
        requires { at + WIDTH ≤ length out.old }
        ensures { out.new ≡ put out.old at (bytes_of WIDTH (value self)) };

    fn get(b: &[u8], at: usize) -> Self
        requires { at + WIDTH ≤ length b.now }
        ensures { value result ≡ number_at WIDTH b.now at };
}

impl Number for u8 {
    const WIDTH: usize = 1;

    ghost WIDTH = { 1 };

    ghost value = { λ x. x };

    fn put(self, out: &mut [u8], at: usize) {
        out[at] = self;
    }

    fn get(b: &[u8], at: usize) -> u8 {
        b[at]
    }
}

impl Number for u16 {
    const WIDTH: usize = 2;

    ghost WIDTH = { 2 };

    ghost value = { λ x. x };

    fn put(self, out: &mut [u8], at: usize) {
        out[at..at + 2].copy_from_slice(&self.to_le_bytes());
    }

    fn get(b: &[u8], at: usize) -> u16 {
        u16::from_le_bytes([b[at], b[at + 1]])
    }
}

impl Number for u32 {
    const WIDTH: usize = 4;

    ghost WIDTH = { 4 };

    ghost value = { λ x. x };

    fn put(self, out: &mut [u8], at: usize) {
        out[at..at + 4].copy_from_slice(&self.to_le_bytes());
    }

    fn get(b: &[u8], at: usize) -> u32 {
        u32::from_le_bytes([b[at], b[at + 1], b[at + 2], b[at + 3]])
    }
}

// The two low bytes of x.
pub(crate) fn low_half(x: u32) -> u16
    ensures { result ≡ x % 2 ^ 16 }
{
    (x % 65536) as u16
}
