// Bytes written over a part of others.
ghost use Rattle.std.specs.Prelude.{◌≡◌, ◌+◌, ◌≤◌, length};
ghost use Rattle.store.specs.Bytes.{placed};

// Writes the part at place `at`, and no other byte.
pub fn overwrite(bytes: &mut [u8], at: usize, part: &[u8])
    requires { at + length part.now ≤ length bytes.old }
    ensures { bytes.new ≡ placed bytes.old at part.now }
{
    bytes[at..at + part.len()].copy_from_slice(part);
}
