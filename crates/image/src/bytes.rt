ghost use Rattle.std.specs.Prelude.{◌≡◌, ◌+◌, ◌<◌, ◌≤◌, length, take, drop, MatchOption};
ghost use Rattle.model.specs.Bytes.{read as read_of, u32_at, i64_at, node_at};

use model::node::Node;

// The `N` bytes at `at`, where they are all there. One test says so: `get(at..)` and `first_chunk` have one each, which a
// loop over nodes pays for.
pub(crate) fn chunk<const N: usize>(bytes: &[u8], at: usize) -> Option<&[u8; N]>
    ensures { MatchOption result (length bytes.now < at + N) (λ chunk. (at + N ≤ length bytes.now) × (chunk.now ≡ take N (drop at bytes.now))) }
{
    if bytes.len() < N || bytes.len() - N < at {
        return None;
    }
    bytes[at..at + N].first_chunk::<N>()
}

// The little-endian u32 at `at`, where its four bytes are there.
pub fn read_u32(bytes: &[u8], at: usize) -> Option<u32>
    ensures { result ≡ read_of bytes.now at 4 (u32_at bytes.now at) }
{
    Some(u32::from_le_bytes(*chunk::<4>(bytes, at)?))
}

// The little-endian i64 at `at`, where its eight bytes are there.
pub fn read_i64(bytes: &[u8], at: usize) -> Option<i64>
    ensures { result ≡ read_of bytes.now at 8 (i64_at bytes.now at) }
{
    Some(i64::from_le_bytes(*chunk::<8>(bytes, at)?))
}

// The node at `at`, where its 24 bytes are there.
#[tactic(auto, using(crate::proofs::Parts::u32_of_part, crate::proofs::Parts::i64_of_part))]
pub fn read_node(bytes: &[u8], at: usize) -> Option<Node>
    ensures { result ≡ read_of bytes.now at 24 (node_at bytes.now at) }
{
    let bytes = chunk::<24>(bytes, at)?;
    Some(Node {
        kind: u32_at(bytes, 0),
        field: u32_at(bytes, 4),
        a: u32_at(bytes, 8),
        b: u32_at(bytes, 12),
        number: i64_at(bytes, 16),
    })
}

// The little-endian u32 at `at`, whose four bytes are there. That a place lies within some bytes is said here and below of the
// two as they are: a type that holds them would be one more slice. Of a part that is cut out to its length, the reader's test
// costs nothing.
pub(crate) fn u32_at(bytes: &[u8], at: usize) -> u32
    requires { at + 4 ≤ length bytes.now }
    ensures { result ≡ u32_at bytes.now at }
{
    read_u32(&bytes[at..at + 4], 0).unwrap()
}

// The little-endian i64 at `at`, whose eight bytes are there.
fn i64_at(bytes: &[u8], at: usize) -> i64
    requires { at + 8 ≤ length bytes.now }
    ensures { result ≡ i64_at bytes.now at }
{
    read_i64(&bytes[at..at + 8], 0).unwrap()
}

// The node at `at`, whose 24 bytes are there.
#[tactic(auto, using(crate::proofs::Parts::u32_of_part, crate::proofs::Parts::i64_of_part))]
pub(crate) fn node_at(bytes: &[u8], at: usize) -> Node
    requires { at + 24 ≤ length bytes.now }
    ensures { result ≡ node_at bytes.now at }
{
    read_node(&bytes[at..at + 24], 0).unwrap()
}
