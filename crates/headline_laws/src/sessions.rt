// Which shards a request names.

ghost use Rattle.headline_laws.specs.Named.{RequestsNameTheirShards};

/// The request of a transaction names each shard that answered an operation of it.
pub fn requests_name_their_shards()
    ensures { RequestsNameTheirShards }
{}
