// What holds of every stream, stated on a contract.
ghost use Rattle.stream.specs.Chunks.{ChunksDeliver, EndTells};

// However a stream is cut into chunks, its messages are handed on, and what is left at its end says whether it ends within one.
#[tactic(auto, using(crate::proofs::Wholes::chunks_deliver, crate::proofs::Wholes::end_tells))]
pub fn chunks_deliver()
    ensures messages { ChunksDeliver }
    ensures end { EndTells }
{}
