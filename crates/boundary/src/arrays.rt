// Numbers one after another in a buffer, written and read. By index: of a slice whose pieces a `zip` lends to be written, a proof knows the length alone.
ghost use Rattle.std.specs.Prelude.{◌≡◌, ◌+◌, ◌*◌, ◌≤◌, length, map};
ghost use Rattle.layout.specs.Put.{put};
ghost use Rattle.layout.specs.Bytes.{bytes_of_all, numbers_at};

use crate::bytes::Number;

pub(crate) fn put_all<N: Number>(a: &[N], out: &mut [u8], at: usize)
    requires { at + N.WIDTH * length a.now ≤ length out.old }
    ensures { out.new ≡ put out.old at (bytes_of_all N.WIDTH (length a.now) (map N.value a.now)) }
{
    for (i, x) in a.iter().enumerate() {
        x.put(out, at + N::WIDTH * i);
    }
}

pub(crate) fn get_all<N: Number, const M: usize>(b: &[u8], at: usize) -> [N; M]
    requires { at + N.WIDTH * M ≤ length b.now }
    ensures { map N.value result ≡ numbers_at N.WIDTH M b.now at }
{
    let mut a = [N::default(); M];
    for (i, x) in a.iter_mut().enumerate() {
        *x = N::get(b, at + N::WIDTH * i);
    }
    a
}
