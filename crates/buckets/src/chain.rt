ghost use Rattle.std.specs.Prelude.{◌≡◌, List, ◌+◌, ◌%◌, ◌<◌, ◌≤◌, ◌==◌, ◌++◌, ◌∷◌, [], Some, IsTrue, false, not};
ghost use Rattle.std.specs.Prelude.{IfSome, IfNone, take};
ghost use Rattle.std.specs.List.{filter, filter_map};
ghost use Rattle.slab.specs.Slab.{get, slab_len, HasRoomFor, ContainsKey, Updates};
ghost use Rattle.buckets.specs.declared.node.Node.{Node};
ghost use Rattle.buckets.specs.declared.sleeper.Sleeper.{Sleeper};
ghost use Rattle.buckets.specs.Sleepers.{thread_on};
ghost use Rattle.buckets.specs.Lists.{among};
ghost use Rattle.buckets.specs.Chains.{node_at, row_of, IsChain, Once, IsFound, Rechained, Chained, last_of};

use crate::node::{Chain, Node, NodeKey, Spot};
use crate::sleeper::Sleeper;
use crate::thread_list::ThreadList;
use slab::Slab;
use words::{Addr, BUCKETS, MOST_THREADS};

/// The bucket of an address, of `buckets` many. Of as many as a run has it takes no division.
pub fn bucket_of(a: Addr, buckets: usize) -> usize
    requires { 0 < buckets }
    ensures { result ≡ a.0 % buckets }
{
    if buckets == BUCKETS as usize {
        a.0 as usize % BUCKETS as usize
    } else {
        a.0 as usize % buckets
    }
}

/// The node under a key, where there is one.
fn node(nodes: &Slab<Node>, key: Option<NodeKey>) -> Option<Node>
    ensures { result ≡ node_at (get nodes.now) key }
{
    match key {
        Some(k) => nodes.get(k.0).copied(),
        None => None,
    }
}

/// Writes into a list the first `n` threads of a chain of `most` nodes at most that sleep on an address, in their order.
/// No node behind the last of them is looked at.
pub fn threads_on(
    nodes: &Slab<Node>,
    chain: Chain,
    most: usize,
    a: Addr,
    n: usize,
    threads: &mut ThreadList,
)
    requires { most ≤ MOST_THREADS }
    ensures { threads.new
        ≡ take n (filter_map (thread_on a.0) (row_of (get nodes.now) most chain)) }
{
    threads.clear();
    let mut here = chain.first;
    for _ in 0..most {
        if threads.len() == n {
            return;
        }
        let Some(at) = node(nodes, here) else { return };
        if at.sleeper.address.0 == a.0 {
            threads.push(at.sleeper.thread);
        }
        here = at.next;
    }
}

/// Where the node of a thread stands in a chain of `most` nodes at most, if it stands there.
fn find(nodes: &Slab<Node>, chain: Chain, most: usize, thread: u32) -> Option<Spot>
    requires { IsChain (get nodes.now) most chain }
    ensures found { IfSome result
        (IsFound (get nodes.now) chain (row_of (get nodes.now) most chain) thread) }
    ensures absent { IfNone result (among thread (row_of (get nodes.now) most chain) ≡ false) }
{
    let mut before = None;
    let mut here = chain.first;
    for _ in 0..most {
        let Some(key) = here else { return None };
        let at = nodes.get(key.0).copied()?;
        if at.sleeper.thread == thread {
            return Some(Spot {
                before,
                key,
                next: at.next,
            });
        }
        before = here;
        here = at.next;
    }
    None
}

/// Has a node lead to another.
fn lead(nodes: &mut Slab<Node>, key: NodeKey, next: Option<NodeKey>)
    requires { ContainsKey nodes.old key.0 }
    ensures leads { (n : Node) → get nodes.old key.0 ≡ Some n
        → Updates nodes.old nodes.new key.0 (Some (record n { next = next })) }
    ensures len { slab_len nodes.new ≡ slab_len nodes.old }
    ensures capacity { nodes.new.capacity ≡ nodes.old.capacity }
{
    nodes[key.0].next = next;
}

/// The last key of a chain once the node before `next` is gone.
fn last_after(
    next: Option<NodeKey>,
    before: Option<NodeKey>,
    last: Option<NodeKey>,
) -> Option<NodeKey>
    ensures { result ≡ last_of next before last }
{
    match next {
        Some(_) => last,
        None => before,
    }
}

/// Puts a sleeper at the end of a chain, and answers the chain that it is then.
pub fn append(nodes: &mut Slab<Node>, chain: Chain, sleeper: Sleeper) -> Chain
    requires room { HasRoomFor nodes.old 1 }
    requires last { IfSome chain.last (λ k. ContainsKey nodes.old k.0) }
    ensures chained { (row : List Sleeper) → Chained (get nodes.old) chain row → Once row
        → Rechained nodes.old nodes.new row (row ++ sleeper ∷ []) result }
    ensures len { slab_len nodes.new ≡ slab_len nodes.old + 1 }
{
    let key = NodeKey(nodes.insert_reserved(Node {
        sleeper,
        next: None,
    }));
    match chain.last {
        Some(last) => {
            lead(nodes, last, Some(key));
            Chain {
                first: chain.first,
                last: Some(key),
            }
        }
        None => Chain {
            first: Some(key),
            last: Some(key),
        },
    }
}

/// Takes the node of a thread out of a chain of `most` nodes at most, and answers the chain that it is then.
pub fn unlink(nodes: &mut Slab<Node>, chain: Chain, most: usize, thread: u32) -> Chain
    requires chain { IsChain (get nodes.old) most chain }
    requires once { Once (row_of (get nodes.old) most chain) }
    requires there { IsTrue (among thread (row_of (get nodes.old) most chain)) }
    ensures chained { Rechained nodes.old nodes.new (row_of (get nodes.old) most chain)
        (filter (λ s. not (s.thread == thread)) (row_of (get nodes.old) most chain)) result }
    ensures len { slab_len nodes.new + 1 ≡ slab_len nodes.old }
{
    let Some(spot) = find(nodes, chain, most, thread) else {
        return chain
    };
    nodes.remove(spot.key.0);
    let last = last_after(spot.next, spot.before, chain.last);
    match spot.before {
        Some(before) => {
            lead(nodes, before, spot.next);
            Chain {
                first: chain.first,
                last,
            }
        }
        None => Chain {
            first: spot.next,
            last,
        },
    }
}
