// Bytes of the host's buffers: the front of its data-out, and what is put into its data-in.
ghost use Rattle.std.specs.Prelude.{◌≡◌, ◌+◌, ◌≤◌, min, length, take};
ghost use Rattle.store.specs.Bytes.{placed};

use store::overwrite;

// The first n bytes, or all if there are fewer.
pub fn front(bytes: &[u8], n: usize) -> &[u8]
    ensures value { result.now ≡ take n bytes.now }
    ensures len { length result.now ≡ min n (length bytes.now) }
{
    &bytes[..n.min(bytes.len())]
}

// Puts at most `allocation` of the bytes at the front of data-in, and says how many. The count stands beside data-in,
// since the host is told it.
pub fn deliver(data_in: &mut [u8], bytes: &[u8], allocation: u8) -> u32
    requires { min allocation (length bytes.now) ≤ length data_in.old }
    ensures count { result ≡ min allocation (length bytes.now) }
    ensures front { data_in.new ≡ placed data_in.old 0 (take allocation bytes.now) }
{
    let part = front(bytes, usize::from(allocation));
    overwrite(data_in, 0, part);
    part.len() as u32
}
