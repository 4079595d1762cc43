//! Spellings of names: which bucket one is found in.
ghost use Rattle.std.specs.Prelude.{◌≡◌, ◌<◌};
ghost use Rattle.zf_typing.specs.{bucket};

/// How many buckets there are.
pub(crate) const BUCKETS: usize = 4_096;

/// The bucket of a name.
pub(crate) fn bucket_of(name: &[u8]) -> usize
    ensures is { result ≡ bucket name.now }
    ensures small { result < 4096 }
{
    let mut bucket = 0;
    for byte in name {
        bucket = (bucket * 31 + usize::from(*byte)) % BUCKETS;
    }
    bucket
}
