// The shards of documents.
ghost use Rattle.std.specs.Prelude.{◌≡◌, ◌<◌};
ghost use Rattle.tf_mapping.specs.Routes as spec;

use tf_model::Text;

/// The shard that a document goes to, by the bytes of its `_id`. Takes no memory.
///
/// From 0 on, each byte makes `h * 31 + byte` of `h`, modulo 2^32; the shard is what is left of the last `h` modulo the
/// number of shards.
#[tactic(auto, unfolding(crate::specs::Routes::shard_of))]
pub fn route(id: &Text, shards: u32) -> u32
    requires { 0 < shards }
    ensures shard { result ≡ spec.shard_of id.now shards }
    ensures within { result < shards }
{
    hash(id.as_bytes()) % shards
}

fn hash(id: &[u8]) -> u32
    ensures { result ≡ spec.hash_of id.now }
{
    let mut hash = 0;
    for byte in id {
        hash = hash_step(hash, *byte);
    }
    hash
}

fn hash_step(hash: u32, byte: u8) -> u32
    ensures { result ≡ spec.hash_step hash byte }
{
    hash.wrapping_mul(31).wrapping_add(u32::from(byte))
}
