//! Lists of the bases of armed handlers, numbered so that equal lists have equal numbers.
//!
//! Two paths must agree on the bases of all handlers. By number that is one comparison, and lists that share their ends take no
//! memory by the square of how deep handlers nest.
ghost use Rattle.std.specs.Prelude.{◌≡◌, ◌+◌, ◌<◌, ◌≤◌, ◌^◌, ◌++◌, ◌∷◌, [], IfOk, OnOk, Some, length, slice_set};
ghost use Rattle.std.specs.BTreeMap.{get, Updates};
ghost use Rattle.grain_rules.specs.Counts.{last_base, without_last};
ghost use Rattle.grain_verify.specs.Lists.{Grows, IsShared, as_base, first_on, firsts_of, list_of, node_cmp, list_count};

use std::alloc::{AllocError, Global};
use std::collections::BTreeMap;

/// The base of an armed handler: how many operands and iterators stood when it was armed.
#[derive(Clone, Copy, PartialEq, Eq, PartialOrd, Ord)]
pub(crate) struct Base {
    pub(crate) operands: u32,
    pub(crate) iterators: u32,
}

/// A base on top of the list with the parent's number.
#[derive(Clone, Copy, PartialEq, Eq, PartialOrd, Ord)]
pub(crate) struct Node {
    pub(crate) parent: u32,
    pub(crate) base: Base,
}

/// The lists that the walk over a chunk has reached.
///
/// Number 0 is the empty list, number k + 1 the list whose last base is that of the node at k. Lists that begin alike
/// share the nodes of what they have in common, and no two nodes are equal, so that two lists are compared as two
/// numbers, and a chunk has at most as many nodes as instructions that arm a handler. A node that is there is found as the
/// first that was made on top of its parent, or else in an ordered map: handlers armed within each other need no map.
#[derive(Drop)]
pub(crate) struct Lists {
    pub(crate) nodes: Vec<Node>,
    /// The number of the first list made on top of the empty one, or 0.
    pub(crate) first: u32,
    /// By node, the number of the first list made on top of its list, or 0.
    pub(crate) firsts: Vec<u32>,
    /// The numbers of the lists of all other nodes.
    pub(crate) others: BTreeMap<Node, u32>,
}

impl Lists {
    /// No list but the empty one. It takes no memory.
    #[inline(always)]
    pub(crate) fn new(alloc: Global) -> Lists
        ensures shared { IsShared result }
        ensures size { list_count result ≡ 0 }
    {
        Lists {
            nodes: Vec::new(alloc),
            first: 0,
            firsts: Vec::new(alloc),
            others: BTreeMap::new(alloc),
        }
    }

    /// Forgets all lists but the empty one. It is compiled apart, since it runs once for each chunk and the walk needs its
    /// registers.
    #[inline(never)]
    pub(crate) fn clear(&mut self)
        ensures shared { IsShared self.new }
        ensures size { list_count self.new ≡ 0 }
    {
        self.nodes.clear();
        self.first = 0;
        self.firsts.clear();
        self.others.clear();
    }

    /// The list with this base after its last one.
    ///
    /// # Errors
    /// [`AllocError`] if the memory was refused.
    // Handlers are rare: inlined, this would take registers from the walk.
    #[inline(never)]
    pub(crate) fn with_base(&mut self, list: u32, base: Base) -> Result<u32, AllocError>
        requires shared { IsShared self.old }
        requires list { list ≤ list_count self.old }
        requires room { list_count self.old + 1 < 2 ^ 32 }
        ensures grows { OnOk result (Grows self.old self.new) }
        ensures list { IfOk result (λ n. (n ≤ list_count self.new)
            × (list_of self.new n ≡ as_base base ∷ list_of self.old list)) }
    {
        let node = Node { parent: list, base };
        let first = self.first_on(list);
        if first == 0 {
            let number = self.add(node)?;
            self.set_first(list, number);
            return Ok(number);
        }
        if self.nodes[first as usize - 1].base == base {
            return Ok(first);
        }
        if let Some(number) = number_of(&self.others, node) {
            return Ok(number);
        }
        let number = self.add(node)?;
        remember(&mut self.others, node, number)?;
        Ok(number)
    }

    /// The number of the first list made on top of a list, or 0.
    #[inline(always)]
    fn first_on(&self, list: u32) -> u32
        requires { list ≤ length self.now.firsts.items }
        ensures { result ≡ first_on (firsts_of self.now) list }
    {
        if list == 0 {
            return self.first;
        }
        self.firsts[list as usize - 1]
    }

    /// Notes the first list that is made on top of a list.
    #[inline(always)]
    fn set_first(&mut self, list: u32, number: u32)
        requires { list ≤ length self.old.firsts.items }
        ensures firsts { firsts_of self.new ≡ slice_set (firsts_of self.old) list number }
        ensures nodes { self.new.nodes ≡ self.old.nodes }
        ensures others { self.new.others ≡ self.old.others }
    {
        if list == 0 {
            self.first = number;
        } else {
            self.firsts[list as usize - 1] = number;
        }
    }

    /// Adds a node, and returns the number of its list, on which none lies yet.
    fn add(&mut self, node: Node) -> Result<u32, AllocError>
        requires { list_count self.old + 1 < 2 ^ 32 }
        ensures nodes { OnOk result (self.new.nodes.items ≡ self.old.nodes.items ++ node ∷ []) }
        ensures firsts { OnOk result (firsts_of self.new ≡ firsts_of self.old ++ 0 ∷ []) }
        ensures others { self.new.others ≡ self.old.others }
        ensures number { IfOk result (λ n. n ≡ list_count self.old + 1) }
    {
        self.nodes.push(node)?;
        self.firsts.push(0)?;
        Ok(self.nodes.len() as u32)
    }

    /// The list without its last base.
    #[inline(always)]
    pub(crate) fn without_last(&self, list: u32) -> u32
        requires shared { IsShared self.now }
        requires list { list ≤ list_count self.now }
        ensures within { result ≤ list_count self.now }
        ensures list { list_of self.now result ≡ without_last (list_of self.now list) }
    {
        if list == 0 {
            return 0;
        }
        self.nodes[list as usize - 1].parent
    }

    /// The last base of the list; of the empty list, that of empty stacks.
    #[inline(always)]
    pub(crate) fn last_base(&self, list: u32) -> Base
        requires shared { IsShared self.now }
        requires list { list ≤ list_count self.now }
        ensures { as_base result ≡ last_base (list_of self.now list) }
    {
        if list == 0 {
            return Base {
                operands: 0,
                iterators: 0,
            };
        }
        self.nodes[list as usize - 1].base
    }
}

/// The number of the list of an equal node, if there is one. It is cut from [`Lists::with_base`] for the prover alone.
fn number_of(numbers: &BTreeMap<Node, u32>, node: Node) -> Option<u32>
    ensures { result ≡ get node_cmp numbers.now node }
{
    numbers.get(&node).copied()
}

/// Gives the list of a node its number. It is cut from [`Lists::with_base`] for the prover alone.
fn remember(numbers: &mut BTreeMap<Node, u32>, node: Node, number: u32) -> Result<(), AllocError>
    ensures { OnOk result (Updates node_cmp numbers.old numbers.new node (Some number)) }
{
    numbers.insert(node, number)?;
    Ok(())
}
