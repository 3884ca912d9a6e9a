use crate::settled::Settled;
use std::marker::PhantomData;

// An engine that keeps a greatest flow of its network, found by best paths under the metric M.
// K says how it comes from the flow that it keeps to the next: `cold::ColdEngine` and `warm::WarmEngine` are its two kinds.
#[derive(Drop)]
pub struct FlowKeeper<M, K> {
    pub settled: Settled,
    pub metric: PhantomData<M>,
    pub kind: PhantomData<K>,
}
